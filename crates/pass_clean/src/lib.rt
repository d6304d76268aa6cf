//! Which blocks of a file its syncs leave dirty.
//!
//! One definition: a sync cleans at its entries, and a staging its own blocks. Who has seen all syncs of a file knows what is clean
//! of it; no more is clean than is durable; no block of a file is dirty behind a sync of it; behind a staging of some blocks what
//! was dirty is so but for these blocks (`laws::syncs`). The vault's seat notes a staging as it notes a sync
//! (`VaultSeat::staged_file`), which `Vault::stage` does.
#![tactic(auto)]

pub mod laws;
