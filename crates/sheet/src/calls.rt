ghost use Rattle.std.specs.Prelude.{◌≡◌, [], length};
ghost use Rattle.sheet.specs.Calls.{Begins, Stamps, StandsThen, Strikes, ListsNext, Tells, Weighs, GivesFirst, short as lack, short_list as lack_list, struck, listed, Keeps};
ghost use Rattle.sheet.specs.Views.{ground_of, stands_on};

use super::page::Sheet;
use super::refusal::Refusal;
use engine::Scale;
use plan::Plan;
use text::{Kind, find};

// The most stamps that stand on a sheet: a plan has no more leaves.
const MOST_STAMPS: usize = 128;

impl<'a, K: Kind> Sheet<'a, K> {
    /// A sheet with no stamps over a plan and the names handed over. Some log begins with no stamps.
    pub fn open(plan: &'a Plan, names: &'a [K]) -> Sheet<'a, K>
        ensures plan { result.plan.now ≡ plan.now }
        ensures names { result.names.now ≡ names.now }
        ensures empty { stands_on K.text result ≡ [] }
        ensures begun { Begins (ground_of K.text result) (stands_on K.text result) }
    {
        // kept: as at the fields of `Sheet`: definitions read the array and the count, so it is no `ArrayVec`.
        Sheet {
            plan,
            names,
            stamps: [0; 128],
            count: 0,
        }
    }

    // kept: the list, the numbers and the amounts are what callers lend, as slices of any length, in this order of refusals
    /// Stamps a name: taken exactly if some log begins with the standing stamps and it.
    pub fn stamp<S: Scale>(
        &mut self,
        name: K,
        numbers: &mut [u16],
        amounts: &mut [S],
    ) -> Result<(), Refusal>
        ensures plan { self.new.plan ≡ self.old.plan }
        ensures names { self.new.names ≡ self.old.names }
        ensures answer { Stamps (ground_of K.text self.old) (stands_on K.text self.old) (K.text name) (lack (length (ground_of K.text self.old).texts) (length numbers.old) (length amounts.old)) result }
        ensures after { StandsThen (ground_of K.text self.old) (stands_on K.text self.old) (K.text name) (lack (length (ground_of K.text self.old).texts) (length numbers.old) (length amounts.old)) (stands_on K.text self.new) }
        ensures begun { Begins (ground_of K.text self.old) (stands_on K.text self.old) → Begins (ground_of K.text self.old) (stands_on K.text self.new) }
    {
        self.room(numbers, amounts)?;
        let known = &self.names[..self.plan.names()];
        let number = find(known, &name).ok_or(Refusal::NotTaken)?;
        let count = self.count;
        if count >= MOST_STAMPS {
            return Err(Refusal::NotTaken);
        }
        let mut stamps = self.stamps;
        stamps[count] = number as u8;
        if !self.search(&stamps[..count + 1]).live(numbers, amounts) {
            return Err(Refusal::NotTaken);
        }
        *self = Sheet {
            plan: self.plan,
            names: self.names,
            stamps,
            count: count + 1,
        };
        Ok(())
    }

    /// Takes the last stamp away.
    pub fn strike(&mut self) -> Result<(), Refusal>
        ensures plan { self.new.plan ≡ self.old.plan }
        ensures names { self.new.names ≡ self.old.names }
        ensures answer { Strikes (stands_on K.text self.old) result }
        ensures after { stands_on K.text self.new ≡ struck (stands_on K.text self.old) }
        ensures begun { Begins (ground_of K.text self.old) (stands_on K.text self.old) → Begins (ground_of K.text self.old) (stands_on K.text self.new) }
    {
        if self.count == 0 {
            return Err(Refusal::NoStamp);
        }
        self.count -= 1;
        Ok(())
    }

    // kept: as at `stamp`
    /// The numbers of the plan's names that `stamp` would take, rising, into a list; answers how many.
    pub fn next<S: Scale>(
        &self,
        list: &mut [u16],
        numbers: &mut [u16],
        amounts: &mut [S],
    ) -> Result<usize, Refusal>
        ensures answer { ListsNext (ground_of K.text self.now) (stands_on K.text self.now) (lack_list (length (ground_of K.text self.now).texts) (length list.old) (length numbers.old) (length amounts.old)) (listed result list.new) }
        ensures kept { Keeps result list.old list.new }
    {
        self.room_for_list(list, numbers, amounts)?;
        let search = self.search(self.standing());
        Ok(search.following(self.plan.names(), list, numbers, amounts))
    }

    /// The fewest and the most stamps to come.
    pub fn distance<S: Scale>(
        &self,
        numbers: &mut [u16],
        amounts: &mut [S],
    ) -> Result<(u16, u16), Refusal>
        ensures { Tells (ground_of K.text self.now) (stands_on K.text self.now) (lack (length (ground_of K.text self.now).texts) (length numbers.old) (length amounts.old)) result }
    {
        self.room(numbers, amounts)?;
        let range = self.search(self.standing()).distances(numbers, amounts);
        range.ok_or(Refusal::NoReading)
    }

    /// The join of the amounts of all readings of the standing stamps, in one scale.
    pub fn amount<S: Scale>(&self, numbers: &mut [u16], amounts: &mut [S]) -> Result<S, Refusal>
        ensures { Weighs S.value S.join S.start S.extend (ground_of K.text self.now) (stands_on K.text self.now) (lack (length (ground_of K.text self.now).texts) (length numbers.old) (length amounts.old)) result }
    {
        self.room(numbers, amounts)?;
        let sum = self
            .search(self.standing())
            .amount_at_last(numbers, amounts);
        sum.ok_or(Refusal::NoReading)
    }

    /// The first reading of the standing stamps, as leaf numbers, into a list; answers how many leaves it has.
    pub fn reading<S: Scale>(
        &self,
        list: &mut [u16],
        numbers: &mut [u16],
        amounts: &mut [S],
    ) -> Result<usize, Refusal>
        ensures answer { GivesFirst (ground_of K.text self.now) (stands_on K.text self.now) (lack_list (length (ground_of K.text self.now).texts) (length list.old) (length numbers.old) (length amounts.old)) (listed result list.new) }
        ensures kept { Keeps result list.old list.new }
    {
        self.room_for_list(list, numbers, amounts)?;
        let way = self.search(self.standing()).first_way(list, numbers);
        way.ok_or(Refusal::NoReading)
    }
}
