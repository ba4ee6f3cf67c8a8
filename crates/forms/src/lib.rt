// What the privileges of a site print.
#![tactic(auto)]

mod printed;
mod write;

pub use printed::well_named;
pub use write::{
    account_form, any_user_form, group_form, number_form, replace_form, root_anywhere_form,
    write_form,
};
