ghost use Rattle.std.specs.Prelude.{length, is_ok};
ghost use Rattle.sheet.specs.Played.{NextCall, Played};
ghost use Rattle.sheet.specs.Runs.{desk, fitted};
ghost use Rattle.sheet.specs.Views.{ground_over};

use super::clerk::Clerk;
use super::service::serve;
use super::words::{Answer, Call, Turn};
use engine::Scale;
use plan::Plan;
use std::alloc::AllocError;
use text::Kind;

// kept: `calls` and `at` are what the definition of the next call reads; another form would change it.
/// Goes through a list of calls, and strikes once they are over.
#[derive(Drop)]
pub struct Player<'a, K> {
    calls: &'a [Call<K>],
    at: usize,
}

impl<'a, K: Kind, S> Clerk<K, S> for Player<'a, K> {
    ghost asks = { λ c a k m. NextCall c k m };

    fn ask(&mut self, _last: &Answer<S>) -> Call<K> {
        let Some(call) = self.calls.get(self.at) else {
            return Call::Strike;
        };
        self.at += 1;
        *call
    }
}

/// Puts a list of calls to a sheet that it opens, each after the one before it, and adds the turns to a transcript.
pub fn play<'x, K: Kind, S: Scale>(
    plan: &'x Plan,
    names: &'x [K],
    calls: &[Call<K>],
    list: &mut [u16],
    numbers: &mut [u16],
    amounts: &mut [S],
    log: &mut Vec<Turn<K, S>>,
) -> Result<(), AllocError>
    ensures { Played (desk K.text S.value S.join S.start S.extend (ground_over K.text plan.now names.now)) (fitted (length list.old) (length numbers.old) (length amounts.old)) calls.now log.old.items log.new.items (is_ok result) }
{
    let mut player = Player { calls, at: 0 };
    serve(
        plan,
        names,
        &mut player,
        calls.len(),
        list,
        numbers,
        amounts,
        log,
    )
}
