//! The replies to acts: their statuses and their bodies, compact JSON. It has no code.
//!
//! - Spec `Bodies`: the status and the body of each reply
//! - Spec `LanguageFields`: the object in the reply to a template that tells each language's counts
#![tactic(auto)]
