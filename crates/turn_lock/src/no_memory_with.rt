use text_parts::NoMemory;

/// Memory ran out, and what was passed comes back.
#[derive(Drop)]
pub struct NoMemoryWith<T> {
    pub state: T,
}

impl<T: Drop> From<NoMemoryWith<T>> for NoMemory {
    fn from(_error: NoMemoryWith<T>) -> NoMemory {
        NoMemory
    }
}
