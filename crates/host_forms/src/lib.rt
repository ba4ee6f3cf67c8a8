// What the privileges of hosts print.
#![tactic(auto)]

mod hosts;
mod rights;

pub use hosts::print_form;
