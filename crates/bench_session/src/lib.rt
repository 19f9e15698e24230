// The answer to every line on every bench, and on every bench and store of settings.
#![tactic(auto)]

pub mod console;
pub mod settings_calls;
pub mod settings_console;
