ghost use Rattle.std.specs.Prelude.{◌≡◌, suc, ◌<◌, Bool, false, length, Some, MatchResult};
ghost use Rattle.mixal.specs.Causes.{cause_of};
ghost use Rattle.mixal.specs.Deck.{is_end_of};
ghost use Rattle.mixal.specs.Model.{model_of};
ghost use Rattle.mixal.specs.Steps.{Judges, Read, Steps, Takes};
ghost use Rattle.mixal.specs.declared.cause.Refusal.TheVariants.{Rejected};
ghost use Rattle.scan.specs.Columns.{is_remark};

use crate::assembly::Assembly;
use crate::cause::{Cause, Refusal, Rejection};
use crate::causes::{bad_columns, check_late, future_for, is_known, is_unreadable};
use crate::draft::Draft;
use crate::sound_card::{OperationCard, SoundCard};
use names::{Operation, operation};
use scan::{is_remark, op_text};
use std::alloc::AllocError;

impl Assembly {
    // The causes 1 to 5: the card, and its operation, of which a remark has none.
    fn judge<'a>(&self, text: &'a [u8]) -> Result<(SoundCard<'a>, Option<Operation>), Cause>
        ensures { Judges (model_of self.now) text.now result }
    {
        if self.progress.drafts.len() >= 600 {
            return Err(Cause::Text);
        }
        let card = SoundCard::read(text).ok_or(Cause::Text)?;
        if is_remark(text) {
            return Ok((card, None));
        }
        let operation = self.operation_of(&card)?;
        Ok((card, Some(operation)))
    }

    // The causes 2 to 5, of a card that is no remark: its operation.
    fn operation_of(&self, card: &SoundCard<'_>) -> Result<Operation, Cause>
        requires remark { is_remark card.now.text.now ≡ false }
        requires room { length self.now.progress.drafts.items < 600 }
        ensures { MatchResult result (Read (model_of self.now) card.now.text.now) (λ x. (last : Bool) → cause_of last (model_of self.now) card.now.text.now ≡ Some x) }
    {
        if bad_columns(card.text) {
            return Err(Cause::Columns);
        }
        if is_known(&self.progress.symbols, card.loc()) {
            return Err(Cause::DefinedTwice);
        }
        let operation = operation(op_text(card.text)).ok_or(Cause::Operation)?;
        if is_unreadable(card.address(), operation) {
            return Err(Cause::Address);
        }
        Ok(operation)
    }

    // One card more. An END card is left to be done, and is told. `last` says that no card follows.
    pub(crate) fn step<'a>(
        &mut self,
        text: &'a [u8],
        last: bool,
    ) -> Result<Option<SoundCard<'a>>, Refusal>
        ensures { Steps last (model_of self.old) text.now (model_of self.new) result }
    {
        match self.judge(text) {
            Err(cause) => Err(self.rejected(cause)),
            Ok((_, None)) if last => Err(self.rejected(Cause::NoEnd)),
            Ok((sound, None)) => {
                let draft = Draft {
                    card: sound.columns,
                    made: None,
                };
                self.progress.drafts.push(draft).map_err(AllocError::from)?;
                Ok(None)
            }
            Ok((sound, Some(Operation::End))) => Ok(Some(sound)),
            Ok((sound, Some(operation))) => {
                self.take(&OperationCard { sound, operation }, last)?;
                Ok(None)
            }
        }
    }

    // A card whose operation is not END: the causes from 6 on, and what a good one does.
    fn take(&mut self, card: &OperationCard<'_>, last: bool) -> Result<(), Refusal>
        requires read { Read (model_of self.old) card.now.sound.text.now card.now.operation }
        requires open { is_end_of (Some card.now.operation) ≡ false }
        ensures { Takes last (model_of self.old) card.now.sound.text.now (model_of self.new) result }
    {
        // Looked up once, for what is checked and for what is made.
        let future = future_for(&self.progress.symbols, card.sound.address(), card.operation);
        if let Err(cause) = check_late(self.progress.scope(), card, future, last) {
            return Err(self.rejected(cause));
        }
        self.operate(card, future)?;
        Ok(())
    }

    // The next card is rejected.
    pub(crate) fn rejected(&self, cause: Cause) -> Refusal
        ensures { result ≡ Rejected (record { cause = cause; card = suc (length self.now.progress.drafts.items) }) }
    {
        Refusal::Rejected(Rejection {
            cause,
            card: self.progress.drafts.len() + 1,
        })
    }
}
