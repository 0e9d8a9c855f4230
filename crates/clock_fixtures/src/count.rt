use clock_journal::{Machine, Record, TakeError};

/// A machine that counts the requests of its journal.
#[derive(Drop)]
pub struct Count(pub u64);

impl Machine for Count {
    ghost rules = { λ count. tt };

    ghost stands_for = { λ count first texts. Unit {0} };

    ghost refuses = { λ rules texts text. ⊥ };

    fn take(&mut self, _text: &[u8], _at: &Record) -> Result<(), TakeError> {
        self.0 = self.0.saturating_add(1);
        Ok(())
    }
}
