//! The rows of the gateway's configuration as plain data: which rows there are, and which are valid.
#![tactic(auto)]

pub mod config;
pub mod consumer;
pub mod entity;
pub mod id;
pub mod key;
pub mod plugin;
pub mod route;
pub mod service;
pub mod value;
