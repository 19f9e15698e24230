// The same console on a table of bytes: its lines, its answers, any line on a table and a store of settings.
#![tactic(auto)]

pub mod table_answers;
pub mod table_console;
pub mod table_requests;
pub mod table_settings;
