use std::alloc::AllocError;

/// Want of memory. Every crate of the project has this one name for it.
pub type NoMemory = AllocError;

/// A result whose one error is want of memory.
pub type Mem<T> = Result<T, NoMemory>;
