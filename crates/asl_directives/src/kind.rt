//! The kinds of directives.
ghost use Rattle.std.specs.Prelude.{◌≡◌};
ghost use Rattle.asl_directives.specs.Kinds as spec;

/// A directive, by its word.
#[derive(Clone, Copy, Debug, PartialEq, Eq)]
pub enum DirectiveKind {
    Define,
    Undefine,
    If,
    IfDefined,
    IfNotDefined,
    ElseIf,
    Else,
    EndIf,
    Include,
    Error,
    Warning,
    Pragma,
}

/// The directive of a word; none where the word is no directive's.
#[tactic(auto, unfolding(crate::specs::Kinds::kind_of))]
pub fn kind_of(word: &[u8]) -> Option<DirectiveKind>
    ensures { result ≡ spec.kind_of word.now }
{
    if word == b"define".as_slice() {
        Some(DirectiveKind::Define)
    } else if word == b"undef".as_slice() {
        Some(DirectiveKind::Undefine)
    } else if word == b"if".as_slice() {
        Some(DirectiveKind::If)
    } else if word == b"ifdef".as_slice() {
        Some(DirectiveKind::IfDefined)
    } else if word == b"ifndef".as_slice() {
        Some(DirectiveKind::IfNotDefined)
    } else if word == b"elif".as_slice() {
        Some(DirectiveKind::ElseIf)
    } else if word == b"else".as_slice() {
        Some(DirectiveKind::Else)
    } else if word == b"endif".as_slice() {
        Some(DirectiveKind::EndIf)
    } else if word == b"include".as_slice() {
        Some(DirectiveKind::Include)
    } else if word == b"error".as_slice() {
        Some(DirectiveKind::Error)
    } else if word == b"warning".as_slice() {
        Some(DirectiveKind::Warning)
    } else if word == b"pragma".as_slice() {
        Some(DirectiveKind::Pragma)
    } else {
        None
    }
}

/// Whether a directive opens, turns or closes branches.
pub fn is_conditional(kind: DirectiveKind) -> bool
    ensures { result ≡ spec.is_conditional kind }
{
    matches!(
        kind,
        DirectiveKind::If
            | DirectiveKind::IfDefined
            | DirectiveKind::IfNotDefined
            | DirectiveKind::ElseIf
            | DirectiveKind::Else
            | DirectiveKind::EndIf
    )
}
