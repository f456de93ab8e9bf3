//! The tokens of a script: cuts its text by longest match, or names the text's first fault.
#![tactic(auto)]

mod fault;
mod law;
mod lexeme;
mod position;
mod scanner;
mod vocabulary;

pub use fault::LexFault;
pub use law::one_lexing;
pub use lexeme::{Token, TokenKind, Tokens};
pub use scanner::lex;
pub use vocabulary::{Sign, Word};
