//! The words of the program that `program` of `gl_tool` does not know: what goes beyond a report, and a script's name.

use crate::usage::{Wishes, has_value, is_flag, is_value};
use std::alloc::{AllocError, Global};

/// What the words ask for.
#[derive(Drop)]
pub struct Call<'a> {
    pub wishes: Wishes,
    /// The file of the script; standard input if there is none.
    pub script: Option<&'a str>,
    /// The words of `program`.
    pub rest: Vec<&'a str>,
}

impl<'a> Call<'a> {
    /// Reads the words.
    pub fn of(alloc: Global, words: &'a [String]) -> Result<Call<'a>, AllocError> {
        let mut call = Call {
            wishes: Wishes::none(),
            script: None,
            rest: Vec::new(alloc),
        };
        let mut is_value = false;
        for word in words {
            let word = word.as_str();
            if is_value || !call.takes(word) {
                call.rest.push(word)?;
            }
            is_value = !is_value && has_value(word);
        }
        Ok(call)
    }

    /// Takes a word that is not one of `program`; whether it is so.
    fn takes(&mut self, word: &'a str) -> bool {
        if self.wishes.take(word) {
            return true;
        }
        if word.starts_with('-') || self.script.is_some() {
            return false;
        }
        self.script = Some(word);
        true
    }

    /// Whether a flag is among the words.
    pub fn has(&self, flag: &str) -> bool {
        for word in self.rest.as_slice() {
            if *word == flag {
                return true;
            }
        }
        false
    }

    /// Whether the words ask for a crew.
    pub fn is_of_crew(&self) -> bool {
        for word in self.rest.as_slice() {
            if *word == "--crew" || word.starts_with("--crew=") {
                return true;
            }
        }
        false
    }

    /// The first word that is unknown, that is no value of the word before it, or that lacks its value.
    pub fn first_bad(&self) -> Option<&'a str> {
        let mut named: Option<&'a str> = None;
        for word in self.rest.as_slice() {
            match named {
                Some(name) if is_value(name, word) => named = None,
                None if has_value(word) => named = Some(*word),
                None if is_flag(word) || is_joined(word) => {}
                _ => return Some(*word),
            }
        }
        named
    }
}

/// Whether a word is a name and its value, with `=` between them.
fn is_joined(word: &str) -> bool {
    match word.split_once('=') {
        Some((name, value)) => has_value(name) && is_value(name, value),
        None => false,
    }
}
