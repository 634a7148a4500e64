//! The error of `Hall::make`.
use std::alloc::AllocError;
use thiserror::Error;

#[derive(Debug, Drop, Error)]
#[error("out of memory")]
pub struct NoMemory;
