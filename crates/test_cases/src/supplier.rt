// What was agreed with a supplier, and the supplier's keys; and what the library answers under them.
use refusals::Refusal;
use settings::Agreement;
use slip::{Gathered, Slip};

#[derive(Drop)]
pub(crate) struct Supplier {
    pub(crate) agreement: Agreement,
    pub(crate) keys: Vec<u8>,
}

impl Supplier {
    pub(crate) fn start(&self, declared: usize) -> session::Step {
        session::start(self.agreement, &self.keys, declared)
    }

    pub(crate) fn start_check(&self, declared: usize, tag: &[u8]) -> session::Step {
        session::start_check(self.agreement, &self.keys, declared, tag)
    }

    pub(crate) fn read(&self, slip: &[u8]) -> Result<Slip, Refusal> {
        slip::read(self.agreement, &self.keys, slip)
    }

    pub(crate) fn lot<'a>(&self, slip: &'a [u8]) -> &'a [u8] {
        slip::lot(self.agreement, &self.keys, slip)
    }

    pub(crate) fn read_gathered(&self, came: Gathered) -> Result<Slip, Refusal> {
        came.read(self.agreement, &self.keys)
    }
}
