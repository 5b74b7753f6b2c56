//! A window's first and last day, and what follows from them.
ghost use Rattle.std.specs.Prelude.{◌≡◌};
ghost use Rattle.language.specs.Clauses.{first, last};
ghost use Rattle.language.specs.Ends.{reach};
ghost use Rattle.days.specs.Windows.{counted, meant, within};

use kinds::LAST_DAY;

/// How the days of a window are counted.
#[derive(Clone, Copy, Debug, PartialEq, Eq)]
pub enum Counted {
    /// From a base day.
    FromBase,
    /// They are the calendar's own.
    ByCalendar,
}

/// The days from `first` to `last`, ends included.
#[derive(Clone, Copy, Debug, PartialEq, Eq)]
pub struct Window {
    pub counted: Counted,
    pub first: u32,
    pub last: u32,
}

impl Counted {
    /// The day of a number, by a base day. The sum of two numbers of 32 bits may need 33.
    fn day(self, base: u32, number: u32) -> u64
        ensures { result ≡ counted self base number }
    {
        match self {
            Counted::FromBase => u64::from(base) + u64::from(number),
            Counted::ByCalendar => u64::from(number),
        }
    }
}

impl Window {
    /// The first day, by a base day.
    pub fn first_day(self, base: u32) -> u64
        ensures { result ≡ first (meant self) base }
    {
        self.counted.day(base, self.first)
    }

    /// The last day, by a base day.
    pub fn last_day(self, base: u32) -> u64
        ensures { result ≡ last (meant self) base }
    {
        self.counted.day(base, self.last)
    }

    /// Does a day lie in the window?
    pub fn holds(self, base: u32, day: u32) -> bool
        ensures { result ≡ within (meant self) base day }
    {
        (self.first_day(base)..=self.last_day(base)).contains(&u64::from(day))
    }

    /// The first day in the window that is not before a clock, if there is one that a record may bear.
    pub fn reach(self, base: u32, clock: u32) -> Option<u32>
        ensures { result ≡ reach (meant self) base clock }
    {
        let day = self.first_day(base).max(u64::from(clock));
        let last = self.last_day(base).min(u64::from(LAST_DAY));
        if day <= last { Some(day as u32) } else { None }
    }
}
