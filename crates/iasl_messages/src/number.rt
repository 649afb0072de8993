//! The numbers of the messages, each named once: remarks in the 2000s, warnings in the 3000s, errors in
//! the 6000s. docs/MESSAGES.md says when each is given; their texts are those of `texts::text_of`.

/// The text of a `#pragma message`.
pub const MESSAGE_PRAGMA: u16 = 2001;

/// Unknown decoded label.
pub const UNKNOWN_LABEL: u16 = 2002;

/// Reserved name has other arguments.
pub const RESERVED_NAME_ARGUMENTS: u16 = 3001;

/// Constant is cut to 32 bits.
pub const CONSTANT_IS_CUT: u16 = 3002;

/// Name is never used.
pub const NAME_IS_UNUSED: u16 = 3003;

/// Warning directive.
pub const WARNING_DIRECTIVE: u16 = 3004;

/// Label differs.
pub const LABEL_DIFFERS: u16 = 3005;

/// Include file is absent.
pub const INCLUDE_IS_ABSENT: u16 = 6001;

/// Includes are nested too deep.
pub const INCLUDES_TOO_DEEP: u16 = 6002;

/// Bad directive.
pub const BAD_DIRECTIVE: u16 = 6003;

/// Conditionals do not balance.
pub const UNBALANCED_CONDITIONALS: u16 = 6004;

/// Error directive.
pub const ERROR_DIRECTIVE: u16 = 6005;

/// Bad condition.
pub const BAD_CONDITION: u16 = 6006;

/// Text is too large.
pub const TEXT_IS_TOO_LARGE: u16 = 6007;

/// Bad character.
pub const BAD_CHARACTER: u16 = 6010;

/// String is not closed.
pub const OPEN_STRING: u16 = 6011;

/// Comment is not closed.
pub const OPEN_COMMENT: u16 = 6012;

/// Bad escape.
pub const BAD_ESCAPE: u16 = 6013;

/// Number is too large.
pub const NUMBER_IS_TOO_LARGE: u16 = 6014;

/// The tokens are no source.
pub const SYNTAX: u16 = 6015;

/// Nesting is too deep.
pub const NESTING_TOO_DEEP: u16 = 6016;

/// Unknown operator.
pub const UNKNOWN_OPERATOR: u16 = 6020;

/// Wrong number of arguments.
pub const WRONG_ARGUMENT_COUNT: u16 = 6021;

/// Wrong form of argument.
pub const WRONG_ARGUMENT_FORM: u16 = 6022;

/// Body is missing or not allowed.
pub const WRONG_BODY: u16 = 6023;

/// Value is out of range.
pub const VALUE_OUT_OF_RANGE: u16 = 6024;

/// Not allowed here.
pub const NOT_ALLOWED_HERE: u16 = 6025;

/// Bad EISA identifier.
pub const BAD_EISA_IDENTIFIER: u16 = 6026;

/// Bad UUID.
pub const BAD_UUID: u16 = 6027;

/// No definition block.
pub const NO_DEFINITION_BLOCK: u16 = 6028;

/// Bad format.
pub const BAD_FORMAT: u16 = 6029;

/// Wrong number of format arguments.
pub const WRONG_FORMAT_ARGUMENT_COUNT: u16 = 6030;

/// Name is declared twice.
pub const NAME_DECLARED_TWICE: u16 = 6040;

/// Name is not found.
pub const NAME_NOT_FOUND: u16 = 6041;

/// Scope is not a container.
pub const SCOPE_IS_NO_CONTAINER: u16 = 6042;

/// Path leaves the root.
pub const PATH_LEAVES_ROOT: u16 = 6043;

/// External is declared here.
pub const EXTERNAL_DECLARED_HERE: u16 = 6044;

/// External arguments differ.
pub const EXTERNAL_ARGUMENTS_DIFFER: u16 = 6045;

/// Path is too long.
pub const PATH_IS_TOO_LONG: u16 = 6046;

/// Wrong type.
pub const WRONG_TYPE: u16 = 6050;

/// Wrong number of call arguments.
pub const WRONG_CALL_ARGUMENT_COUNT: u16 = 6051;

/// No loop to leave.
pub const NO_LOOP: u16 = 6052;

/// Case value occurs twice.
pub const CASE_OCCURS_TWICE: u16 = 6053;

/// Wrong kind of object.
pub const WRONG_OBJECT_KIND: u16 = 6054;

/// Argument is above the count.
pub const ARGUMENT_ABOVE_COUNT: u16 = 6055;

/// Field is not whole bytes.
pub const FIELD_NOT_WHOLE_BYTES: u16 = 6056;

/// List is longer than its size.
pub const LIST_LONGER_THAN_SIZE: u16 = 6057;

/// Too few free locals.
pub const TOO_FEW_LOCALS: u16 = 6061;

/// Too many copies.
pub const TOO_MANY_COPIES: u16 = 6062;

/// Offset goes back.
pub const OFFSET_GOES_BACK: u16 = 6070;

/// Bad width.
pub const BAD_WIDTH: u16 = 6071;

/// Access is wider than the region.
pub const ACCESS_WIDER_THAN_REGION: u16 = 6072;

/// Space needs buffer access.
pub const SPACE_NEEDS_BUFFER_ACCESS: u16 = 6073;

/// Buffer access is not allowed.
pub const BUFFER_ACCESS_NOT_ALLOWED: u16 = 6074;

/// Connection is missing.
pub const CONNECTION_IS_MISSING: u16 = 6075;

/// Table is too long.
pub const TABLE_IS_TOO_LONG: u16 = 6080;

/// Unknown table.
pub const UNKNOWN_TABLE: u16 = 6090;

/// Field is missing.
pub const FIELD_IS_MISSING: u16 = 6091;

/// Too many lines.
pub const TOO_MANY_LINES: u16 = 6092;

/// Bad value.
pub const BAD_VALUE: u16 = 6093;

/// Value is too wide.
pub const VALUE_IS_TOO_WIDE: u16 = 6094;

/// Unknown structure type.
pub const UNKNOWN_STRUCTURE_TYPE: u16 = 6095;

/// Decoded line disagrees.
pub const DECODED_LINE_DISAGREES: u16 = 6096;

/// Bad locality matrix.
pub const BAD_LOCALITY_MATRIX: u16 = 6097;

/// Bad header line.
pub const BAD_HEADER_LINE: u16 = 6100;

/// Bad pair.
pub const BAD_PAIR: u16 = 6101;

/// Offset is out of order.
pub const OFFSET_OUT_OF_ORDER: u16 = 6102;

/// Length disagrees with the header.
pub const LENGTH_DISAGREES: u16 = 6103;

/// Unknown data type.
pub const UNKNOWN_DATA_TYPE: u16 = 6110;

/// Label is declared twice.
pub const LABEL_DECLARED_TWICE: u16 = 6111;

/// Label is not found.
pub const LABEL_NOT_FOUND: u16 = 6112;
