//! What is printed of exchanges one after another.
use anyhow::Result;
use std::alloc::Global;

/// What is printed of exchanges one after another; those with the same result are printed together.
#[derive(Drop)]
pub(crate) struct Spans {
    printed: String,
    now: Option<ByteSpan>,
}

#[derive(Drop)]
struct ByteSpan {
    first: usize,
    last: usize,
    outcome: String,
}

impl Spans {
    pub(crate) fn after(printed: String) -> Self {
        Spans { printed, now: None }
    }

    pub(crate) fn add(&mut self, alloc: Global, at: usize, outcome: String) -> Result<()> {
        if let Some(span) = &mut self.now {
            if span.outcome.as_str() == outcome.as_str() {
                span.last = at;
                return Ok(());
            }
        }
        self.end_span(alloc)?;
        self.now = Some(ByteSpan {
            first: at,
            last: at,
            outcome,
        });
        Ok(())
    }

    fn end_span(&mut self, alloc: Global) -> Result<()> {
        if let Some(span) = self.now.take() {
            let line = format!(in alloc; "{} to {}: {}\n", span.first, span.last, span.outcome)?;
            self.printed.push_str(line.as_str())?;
        }
        Ok(())
    }

    pub(crate) fn ended(mut self, alloc: Global) -> Result<String> {
        self.end_span(alloc)?;
        Ok(self.printed)
    }
}
