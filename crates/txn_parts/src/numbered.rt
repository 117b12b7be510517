//! A transfer under its number.
use lock_core::Job;

/// A transfer and its number.
#[derive(Drop)]
pub struct Numbered {
    pub number: u32,
    pub job: Job,
}
