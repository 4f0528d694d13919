// The board.
ghost use Rattle.std.specs.Prelude.{◌≡◌, ℕ, ◌+◌, ◌≤◌, [], ◌++◌, false, not, true, length, map, slice_get, slice_set, vec_capacity, if◌then◌else◌, IfOk, IfSome, IfNone, OnErr, OnOk, None, Some};
ghost use Rattle.std.specs.List.{count_by};
ghost use Rattle.commit_board.specs.declared.slot.Slot.TheVariants.{Open, Claimed, Answered};
ghost use Rattle.commit_board.specs.Boards.{IsClaim, IsRight, AreAnswers, AreTaken, Stands, closed, has_answer, is_answered, is_claimed, is_claimed_at, is_claimed_of, may_start, put_by, started, with_slot};
ghost use Rattle.commit_board.specs.Places.{below, times};

use crate::claim::{Claim, Found, Ticket};
use crate::course::Course;
use crate::slot::Slot;
use site_base::OutOfMemory;
use std::alloc::Global;
use std::marker::{Model, PhantomData};
use std::mem;

/// A board, on which the tasks of one wave stand at a time. Each task is open, claimed by a worker, or answered, and those of the next wave
/// come once all of these are answered. Clauses see the number of the wave, whether it is under way, and how each of its tasks stands.
#[derive(Drop)]
pub struct Board<T, A, L: Course<T, A>> {
    wave: u32,
    is_running: bool,
    slots: Vec<Slot<T, A>>,
    /// The places of the open tasks, and room for those of all.
    free: Vec<usize>,
    /// How many tasks have no answer.
    left: usize,
    of: PhantomData<L>,
}

impl<T, A, L: Course<T, A>> Model for Board<T, A, L> {
    ghost use Rattle.commit_board.specs.Boards.{Contents, Holds};

    ghost Value = { Contents T A };

    ghost view = { λ b. record { wave = b.wave; is_running = b.is_running; slots = b.slots.items } };

    ghost invariant = { λ b. Holds L.size L.asks L.gives b.wave b.is_running b.slots.items b.free b.left };
}

/// The answers of a wave, in the order of its tasks.
#[derive(Drop)]
pub struct Answers<A> {
    pub wave: u32,
    pub list: Vec<A>,
}

impl<T: Drop, A: Drop, L: Course<T, A>> Board<T, A, L> {
    /// A board without tasks, before the first wave.
    pub fn new(alloc: Global) -> Board<T, A, L>
        ensures { result ≡ record { wave = 0; is_running = false; slots = [] } }
    {
        Board {
            wave: 0,
            is_running: false,
            slots: Vec::new(alloc),
            free: Vec::new(alloc),
            left: 0,
            of: PhantomData,
        }
    }

    /// The number of the wave that is under way.
    pub fn wave(&self) -> Option<u32>
        ensures wave { result ≡ (if self.now.is_running then Some self.now.wave else None) }
        ensures rule { Stands L.size L.asks L.gives self.now }
    {
        if self.is_running {
            Some(self.wave)
        } else {
            None
        }
    }

    /// Opens the tasks of a wave, and says whether it did. It does so unless a wave is under way, or one of this number or a later one
    /// was. It takes a time that grows with the tasks.
    ///
    /// # Errors
    ///
    /// `OutOfMemory` if there is none for the tasks. The board is as before.
    pub fn start(&mut self, alloc: Global, wave: u32, tasks: Vec<T>) -> Result<bool, OutOfMemory>
        requires size { length tasks.items ≡ L.size wave }
        requires asked { (k : ℕ) (t : T) → slice_get tasks.items k ≡ Some t → L.asks wave k t }
        ensures when { IfOk result (λ yes. yes ≡ may_start wave self.old) }
        ensures board { OnOk result (self.new ≡ started wave tasks.items self.old) }
        ensures err { OnErr result (self.new ≡ self.old) }
    {
        if self.is_running || wave <= self.wave {
            return Ok(false);
        }
        let count = tasks.len();
        let free = all_places(alloc, count)?;
        let slots = all_open(alloc, tasks)?;
        self.wave = wave;
        self.is_running = true;
        self.slots = slots;
        self.free = free;
        self.left = count;
        Ok(true)
    }

    /// Claims an open task. `None` comes exactly where none is open.
    pub fn claim(&mut self) -> Option<Claim<T, L>>
        ensures claimed { IfSome result (λ c. IsClaim self.old c self.new) }
        ensures asked { IfSome result (λ c. L.asks c.ticket.wave c.ticket.place c.task) }
        ensures none { IfNone result (AreTaken self.old.slots × (self.new ≡ self.old)) }
    {
        let place = self.free.pop()?;
        let task = take_open(&mut self.slots, place);
        Some(Claim {
            task,
            ticket: Ticket {
                wave: self.wave,
                place,
                of: PhantomData,
            },
        })
    }

    /// Puts back what became of a task that was claimed, and says whether it did: its answer stands then at its place, or the task is open
    /// again. It doesn't where this task isn't claimed on this board, and changes nothing then.
    pub fn put(&mut self, ticket: Ticket<L>, found: Found<T, A>) -> bool
        requires { IsRight L.asks L.gives ticket found }
        ensures when { result ≡ is_claimed ticket self.old }
        ensures board { self.new ≡ put_by ticket found self.old }
    {
        let Ticket { wave, place, of: _ } = ticket;
        if !self.has_claimed(wave, place) {
            return false;
        }
        match found {
            Found::Answer(answer) => self.put_answer(place, answer),
            Found::Task(task) => self.put_task(place, task),
        }
        true
    }

    /// Whether the task that a wave has at a place is claimed here.
    fn has_claimed(&self, wave: u32, place: usize) -> bool
        ensures claimed { result ≡ is_claimed_of wave place self.now }
        ensures here { result ≡ true → (wave ≡ self.now.wave) × (slice_get self.now.slots place ≡ Some Claimed) }
    {
        wave == self.wave && is_claimed_in(self.slots.as_slice(), place)
    }

    /// Puts an answer to its place, where the task is claimed.
    fn put_answer(&mut self, place: usize, answer: A)
        requires claimed { slice_get self.old.slots place ≡ Some Claimed }
        requires right { L.gives self.old.wave place answer }
        ensures { self.new ≡ with_slot place (Answered answer) self.old }
    {
        self.slots[place] = Slot::Answered(answer);
        self.left -= 1;
    }

    /// Opens a task at its place again, if it is claimed.
    fn put_task(&mut self, place: usize, task: T)
        requires claimed { slice_get self.old.slots place ≡ Some Claimed }
        requires asked { L.asks self.old.wave place task }
        ensures { self.new ≡ with_slot place (Open task) self.old }
    {
        self.slots[place] = Slot::Open(task);
        self.free.push_reserved(place);
    }

    /// Takes the answers of a wave, once all are there. `None` comes exactly while a task of it has no answer, and where no wave is under
    /// way.
    ///
    /// # Errors
    ///
    /// `OutOfMemory` if there is none for the list. The board is as before.
    pub fn answers(&mut self, alloc: Global) -> Result<Option<Answers<A>>, OutOfMemory>
        ensures taken { IfOk result (λ r. IfSome r (λ x. (self.old.slots ≡ map Answered x.list.items) × (x.wave ≡ self.old.wave) × (self.new ≡ closed self.old))) }
        ensures right { IfOk result (λ r. IfSome r (λ x. AreAnswers (L.size x.wave) (L.gives x.wave) x.list.items)) }
        ensures none { IfOk result (λ r. IfNone r ((is_answered self.old ≡ false) × (self.new ≡ self.old))) }
        ensures err { OnErr result (self.new ≡ self.old) }
    {
        if !self.is_running || self.left > 0 {
            return Ok(None);
        }
        let mut list = Vec::with_capacity(alloc, self.slots.len())?;
        let slots = mem::replace(&mut self.slots, Vec::new(alloc));
        self.is_running = false;
        move_answers(slots, &mut list);
        let wave = self.wave;
        Ok(Some(Answers { wave, list }))
    }
}

/// The places of so many tasks, the first of them last.
fn all_places(alloc: Global, count: usize) -> Result<Vec<usize>, OutOfMemory>
    ensures each { IfOk result (λ ps. (k : ℕ) → times k ps.items ≡ below k count) }
    ensures many { IfOk result (λ ps. length ps.items ≡ count) }
    ensures room { IfOk result (λ ps. count ≤ vec_capacity ps) }
{
    let mut places = Vec::with_capacity(alloc, count)?;
    let mut left = count;
    while left > 0 {
        left -= 1;
        places.push_reserved(left);
    }
    Ok(places)
}

/// Tasks that are all open.
fn all_open<T: Drop, A: Drop>(alloc: Global, tasks: Vec<T>) -> Result<Vec<Slot<T, A>>, OutOfMemory>
    ensures { IfOk result (λ slots. slots.items ≡ map Open tasks.items) }
{
    let mut slots = Vec::with_capacity(alloc, tasks.len())?;
    for task in tasks {
        slots.push(Slot::Open(task))?;
    }
    Ok(slots)
}

/// Claims the task at a place, which is open.
fn take_open<T: Drop, A: Drop>(slots: &mut Vec<Slot<T, A>>, place: usize) -> T
    requires { (t : T) × (slice_get slots.old.items place ≡ Some (Open t)) }
    ensures was { slice_get slots.old.items place ≡ Some (Open result) }
    ensures is { slots.new.items ≡ slice_set slots.old.items place Claimed }
{
    let slot = &mut slots[place];
    let before = mem::replace(slot, Slot::Claimed);
    let Slot::Open(task) = before else {
        unreachable!()
    };
    task
}

/// Whether the task at a place is claimed.
fn is_claimed_in<T, A>(slots: &[Slot<T, A>], place: usize) -> bool
    ensures { result ≡ is_claimed_at (slice_get slots.now place) }
{
    matches!(slots.get(place), Some(Slot::Claimed))
}

/// Moves the answers of tasks that are all answered behind others.
fn move_answers<T: Drop, A: Drop>(slots: Vec<Slot<T, A>>, list: &mut Vec<A>)
    requires answered { count_by (λ s. not (has_answer s)) slots.items ≡ 0 }
    requires room { length list.old.items + length slots.items ≤ vec_capacity list.old }
    ensures { map Answered list.new.items ≡ map Answered list.old.items ++ slots.items }
{
    for slot in slots {
        let Slot::Answered(answer) = slot else {
            unreachable!()
        };
        list.push_reserved(answer);
    }
}
