// A power cycle of a disk in a file, which only proofs read.
use std::snapshot::Snapshot;

/// The file as it was closed, and as it was opened again. It takes no bytes.
#[derive(Drop)]
pub(crate) struct PowerCycle<D> {
    pub(crate) closed: Snapshot<D>,
    pub(crate) opened: Snapshot<D>,
}
