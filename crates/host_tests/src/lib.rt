//! Tests of the top call, of the words of the command line, and of the lines beside worlds.
#![tactic(auto)]

#[cfg(test)]
mod tests;
