// What a program is made of, and what each word of its text does.
#![tactic(auto)]

pub mod find;
pub mod grammar;
pub mod operator;
pub mod record;
pub mod reserved;
pub mod token;
