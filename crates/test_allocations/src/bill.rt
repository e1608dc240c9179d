//! The output of the scenarios. Printing takes no memory.

use std::alloc::Global;

/// Reports each scenario, and records whether all were as expected.
#[derive(Drop)]
pub(crate) struct Bill<'a> {
    rt: &'a HostRuntime,
    failed: bool,
}

impl<'a> Bill<'a> {
    pub(crate) fn new(rt: &'a HostRuntime) -> Self {
        Bill { rt, failed: false }
    }

    pub(crate) fn alloc(&self) -> Global {
        self.rt.alloc()
    }

    /// Reports a scenario: as expected, or the first step that was not.
    pub(crate) fn tell(&mut self, scenario: &str, differs: Option<u32>) {
        let rt = self.rt;
        let printed = match differs {
            None => println!(rt; "{scenario}: as wanted"),
            Some(step) => println!(rt; "{scenario}: not as wanted at step {step}"),
        };
        if differs.is_some() || printed.is_err() {
            self.failed = true;
        }
    }

    /// The exit status: 0 if all scenarios were as expected.
    pub(crate) fn status(&self) -> u8 {
        u8::from(self.failed)
    }
}
