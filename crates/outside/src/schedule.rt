// Which calls of a folder, an input or a sink in memory fail.
ghost use Rattle.std.specs.Prelude.{◌≡◌, ◌≤◌, ℕ, ⊤, IsTrue, IfOk, ◌↔◌};
ghost use Rattle.outside.specs.Causes.{Rose, Absorbed, CountsWhere, one_more, added};
ghost use Rattle.outside.specs.Schedules.{number_of, with_call, later_of, no_call, Plans, Forked, Moved, failing_of};
ghost use Rattle.outside.specs.Schedules.{calls_made, faults_of, IsPlanned};
ghost use Rattle.outside.specs.declared.schedule.Method.{Method};

use lists_and_answers::Items;
use std::alloc::{AllocError, Global};

/// The calls that can answer `Failed`.
#[derive(Clone, Copy, Debug, PartialEq, Eq)]
pub enum Method {
    Open,
    ReadAt,
    Create,
    Grow,
    WriteAt,
    Append,
    DraftRead,
    Publish,
    Take,
    Put,
}

/// A call that is to fail: by its number among all calls that can answer `Failed`, or by its method and its number
/// among the calls of that method. Numbers start at 1.
#[derive(Clone, Copy, Debug, PartialEq, Eq)]
pub enum Failing {
    Call(u64),
    Of(Method, u64),
}

/// How many calls were made so far: of all methods together, and of each. A number stands still at 2^64 - 1.
#[derive(Clone, Copy, Debug, PartialEq, Eq)]
pub struct Made {
    pub all: u64,
    pub open: u64,
    pub read_at: u64,
    pub create: u64,
    pub grow: u64,
    pub write_at: u64,
    pub append: u64,
    pub draft_read: u64,
    pub publish: u64,
    pub take: u64,
    pub put: u64,
}

impl Made {
    /// No call was made.
    pub const NONE: Made = Made {
        all: 0,
        open: 0,
        read_at: 0,
        create: 0,
        grow: 0,
        write_at: 0,
        append: 0,
        draft_read: 0,
        publish: 0,
        take: 0,
        put: 0,
    };

    /// The number of calls of this method.
    pub fn number(self, method: Method) -> u64
        ensures number { result ≡ number_of self method }
    {
        match method {
            Method::Open => self.open,
            Method::ReadAt => self.read_at,
            Method::Create => self.create,
            Method::Grow => self.grow,
            Method::WriteAt => self.write_at,
            Method::Append => self.append,
            Method::DraftRead => self.draft_read,
            Method::Publish => self.publish,
            Method::Take => self.take,
            Method::Put => self.put,
        }
    }

    /// Counts one more call of this method.
    pub fn count(self, method: Method) -> Made
        ensures counted { result ≡ with_call self method }
    {
        let all = self.all.saturating_add(1);
        let next = self.number(method).saturating_add(1);
        match method {
            Method::Open => Made {
                all,
                open: next,
                ..self
            },
            Method::ReadAt => Made {
                all,
                read_at: next,
                ..self
            },
            Method::Create => Made {
                all,
                create: next,
                ..self
            },
            Method::Grow => Made {
                all,
                grow: next,
                ..self
            },
            Method::WriteAt => Made {
                all,
                write_at: next,
                ..self
            },
            Method::Append => Made {
                all,
                append: next,
                ..self
            },
            Method::DraftRead => Made {
                all,
                draft_read: next,
                ..self
            },
            Method::Publish => Made {
                all,
                publish: next,
                ..self
            },
            Method::Take => Made {
                all,
                take: next,
                ..self
            },
            Method::Put => Made {
                all,
                put: next,
                ..self
            },
        }
    }

    /// The greater number of two, each by itself.
    pub fn later(self, other: Made) -> Made
        ensures later { result ≡ later_of self other }
    {
        Made {
            all: self.all.max(other.all),
            open: self.open.max(other.open),
            read_at: self.read_at.max(other.read_at),
            create: self.create.max(other.create),
            grow: self.grow.max(other.grow),
            write_at: self.write_at.max(other.write_at),
            append: self.append.max(other.append),
            draft_read: self.draft_read.max(other.draft_read),
            publish: self.publish.max(other.publish),
            take: self.take.max(other.take),
            put: self.put.max(other.put),
        }
    }
}

/// Says of each call whether it is to fail, and counts those that do.
pub trait Schedule: Sized + Send + Drop {
    /// How many calls failed.
    ghost faults: { Self → ℕ };

    /// The next call is to fail, if it is one of this method.
    ghost plans: { Self → Method → Type 0 };

    /// The schedule of a view, which goes on from the folder's at the fork.
    ghost forked: { Self → Self → Type 0 };

    /// The schedule of a folder before and after it took in that of a view, which stands between the two.
    ghost moved: { Self → Self → Self → Type 0 };

    /// Counts a call of this method, and says whether it is to fail.
    fn fails(&mut self, method: Method) -> bool
        ensures planned { IsTrue result ↔ plans self.old method }
        ensures count { CountsWhere (plans self.old method) (faults self.old) (faults self.new) }
        ensures later { faults self.old ≤ faults self.new }
        ensures risen { IsTrue result → Rose (faults self.old) (faults self.new) };

    /// How many calls failed.
    fn faults(&self) -> u64
        ensures faults { result ≡ faults self.now };

    /// The schedule of a view: it counts on from these numbers, and no call of it failed.
    fn fork(&self, alloc: Global) -> Result<Self, AllocError>
        ensures view { IfOk result (λ view. faults view ≡ 0) }
        ensures schedule { IfOk result (λ view. forked self.now view) };

    /// Ends a view's schedule: the calls of the view that failed are added, up to 2^64 - 1.
    fn absorb(&mut self, view: Self)
        ensures faults { Absorbed (faults self.old) (faults view) (faults self.new) }
        ensures counted { faults self.new ≡ added (faults self.old) (faults view) }
        ensures schedule { moved self.old view self.new };
}

/// No call fails.
#[derive(Clone, Copy, Debug, Drop, PartialEq, Eq)]
pub struct Never;

impl Schedule for Never {
    ghost faults = { λ _. 0 };

    ghost plans = { λ _ _. ⊥ };

    ghost forked = { λ _ _. ⊤ };

    ghost moved = { λ _ _ _. ⊤ };

    fn fails(&mut self, _: Method) -> bool {
        false
    }

    fn faults(&self) -> u64 {
        0
    }

    fn fork(&self, _: Global) -> Result<Self, AllocError> {
        Ok(Never)
    }

    fn absorb(&mut self, _: Self) {}
}

/// The calls of a list fail.
#[derive(Drop)]
pub struct Listed {
    failing: Items<Failing>,
    made: Made,
    faults: u64,
}

// Whether the list has the call that was made last, which was one of this method.
fn is_planned(failing: &[Failing], made: Made, method: Method) -> bool
    ensures planned { IsTrue result ↔ IsPlanned failing.now made method }
{
    let all = Failing::Call(made.all);
    let of = Failing::Of(method, made.number(method));
    failing.contains(&all) || failing.contains(&of)
}

fn copy_failing(alloc: Global, failing: &[Failing]) -> Result<Items<Failing>, AllocError>
    ensures copy { IfOk result (λ copy. copy ≡ failing.now) }
{
    let mut copy = Items::new(alloc);
    for call in failing {
        copy.push(*call)?;
    }
    Ok(copy)
}

impl Listed {
    /// These calls are to fail, and none was made yet.
    pub fn new(failing: Items<Failing>) -> Self
        ensures failing { failing_of result ≡ failing }
        ensures made { calls_made result ≡ no_call }
        ensures faults { ⟦<Listed as Schedule>⟧.faults result ≡ 0 }
    {
        Listed {
            failing,
            made: Made::NONE,
            faults: 0,
        }
    }

    /// Counts a call that failed though no list names it.
    pub fn add_fault(&mut self)
        ensures faults { ⟦<Listed as Schedule>⟧.faults self.new ≡ one_more (⟦<Listed as Schedule>⟧.faults self.old) }
        ensures later { ⟦<Listed as Schedule>⟧.faults self.old ≤ ⟦<Listed as Schedule>⟧.faults self.new }
        ensures failing { failing_of self.new ≡ failing_of self.old }
        ensures made { calls_made self.new ≡ calls_made self.old }
    {
        self.faults = self.faults.saturating_add(1);
    }
}

impl Schedule for Listed {
    ghost faults = { λ s. s.faults };

    ghost plans = { Plans };

    ghost forked = { Forked };

    ghost moved = { Moved };

    fn fails(&mut self, method: Method) -> bool
        ensures planned { IsTrue result ↔ Plans self.old method }
        ensures count { CountsWhere (Plans self.old method) (faults_of self.old) (faults_of self.new) }
        ensures later { faults_of self.old ≤ faults_of self.new }
        ensures risen { IsTrue result → Rose (faults_of self.old) (faults_of self.new) }
        ensures failing { failing_of self.new ≡ failing_of self.old }
        ensures made { calls_made self.new ≡ with_call (calls_made self.old) method }
    {
        self.made = self.made.count(method);
        let fails = is_planned(self.failing.as_slice(), self.made, method);
        if fails {
            self.add_fault();
        }
        fails
    }

    fn faults(&self) -> u64 {
        self.faults
    }

    fn fork(&self, alloc: Global) -> Result<Self, AllocError> {
        Ok(Listed {
            failing: copy_failing(alloc, self.failing.as_slice())?,
            made: self.made,
            faults: 0,
        })
    }

    fn absorb(&mut self, view: Self) {
        self.made = self.made.later(view.made);
        self.faults = self.faults.saturating_add(view.faults);
    }
}
