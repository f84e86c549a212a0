// A verdict or a judgement on standard output, in document 01's words.

#![tactic(auto)]

use refusal::Refusal;
use std::io;

pub fn print_verdict<R: Print>(rt: &R, v: Result<(), Refusal>) -> io::Result<()> {
    match v {
        Ok(()) => println!(rt; "accepted"),
        Err(refusal) => println!(rt; "{refusal}"),
    }
}

pub fn print_judgement<R: Print>(rt: &R, j: Result<bool, Refusal>) -> io::Result<()> {
    match j {
        Ok(true) => println!(rt; "holds"),
        Ok(false) => println!(rt; "fails"),
        Err(refusal) => println!(rt; "{refusal}"),
    }
}
