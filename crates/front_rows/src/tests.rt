mod of_asl_conditions;
mod of_asl_directives;
mod of_asl_fragments;
mod of_asl_lexer;
mod of_asl_macros;
mod of_asl_parser;
mod of_asl_preprocess;
