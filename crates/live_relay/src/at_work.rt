use std::sync::atomic::{AtomicBool, AtomicU64, Ordering};

/// Who is at work, told from thread to thread. It decides alone who waits for whom.
#[derive(Drop)]
pub(crate) struct AtWork {
    senders: u64,
    // How many senders have begun.
    begun: AtomicU64,
    // The receiving worker waits no longer.
    has_left: AtomicBool,
}

impl AtWork {
    /// So many senders are to begin.
    pub(crate) fn new(senders: usize) -> AtWork {
        AtWork {
            senders: senders as u64,
            begun: AtomicU64::new(0),
            has_left: AtomicBool::new(false),
        }
    }

    pub(crate) fn begin(&self) {
        let _ = self.begun.fetch_add(1, Ordering::SeqCst);
    }

    pub(crate) fn all_have_begun(&self) -> bool {
        self.begun.load(Ordering::SeqCst) == self.senders
    }

    pub(crate) fn leave(&self) {
        self.has_left.store(true, Ordering::SeqCst);
    }

    pub(crate) fn has_left(&self) -> bool {
        self.has_left.load(Ordering::SeqCst)
    }
}
