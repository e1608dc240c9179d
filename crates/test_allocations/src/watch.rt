//! The expectations of a scenario, step by step.

/// The number of steps so far, and the first of them that was not as expected.
#[derive(Clone, Copy)]
pub(crate) struct Watch {
    steps: u32,
    differs: Option<u32>,
}

impl Watch {
    pub(crate) fn new() -> Self {
        Watch {
            steps: 0,
            differs: None,
        }
    }

    /// The next step begins.
    pub(crate) fn step(&mut self) {
        self.steps = self.steps.saturating_add(1);
    }

    /// This must hold at the step.
    pub(crate) fn holds(&mut self, is_so: bool) {
        if !is_so && self.differs.is_none() {
            self.differs = Some(self.steps);
        }
    }

    /// The value must be the expected one.
    pub(crate) fn same<T: PartialEq + Drop>(&mut self, came: T, wanted: T) {
        self.holds(came == wanted);
    }

    /// The first step that was not as expected.
    pub(crate) fn differs(&self) -> Option<u32> {
        self.differs
    }
}
