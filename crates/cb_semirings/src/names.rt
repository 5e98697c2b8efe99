//! The semirings by name and by number. A new one needs a variant, its name, its number and an arm of
//! [`over_semiring`], and the same in `specs/Names`.
ghost use Rattle.std.specs.Prelude.{◌≡◌};

/// A semiring of this crate.
#[derive(Clone, Copy, Debug, PartialEq, Eq)]
pub enum SemiringName {
    PlusTimes,
    MinPlus,
    OrAnd,
    MaxMin,
    PlusPair,
    PlusMin,
    PlusFirst,
    PlusSecond,
    MinFirst,
    MinSecond,
    MaxFirst,
    MaxSecond,
    MaxPlus,
    MinMax,
}

/// The names, in the order of their numbers.
pub static NAMES: [&str; 14] = [
    "plus-times",
    "min-plus",
    "or-and",
    "max-min",
    "plus-pair",
    "plus-min",
    "plus-first",
    "plus-second",
    "min-first",
    "min-second",
    "max-first",
    "max-second",
    "max-plus",
    "min-max",
];

impl SemiringName {
    ghost use Rattle.cb_semirings.specs.Names.{named, numbered};

    /// The semiring with a name.
    pub fn named(name: &str) -> Option<SemiringName>
        ensures { result ≡ named name.now }
    {
        match name {
            "plus-times" => Some(SemiringName::PlusTimes),
            "min-plus" => Some(SemiringName::MinPlus),
            "or-and" => Some(SemiringName::OrAnd),
            "max-min" => Some(SemiringName::MaxMin),
            "plus-pair" => Some(SemiringName::PlusPair),
            "plus-min" => Some(SemiringName::PlusMin),
            "plus-first" => Some(SemiringName::PlusFirst),
            "plus-second" => Some(SemiringName::PlusSecond),
            "min-first" => Some(SemiringName::MinFirst),
            "min-second" => Some(SemiringName::MinSecond),
            "max-first" => Some(SemiringName::MaxFirst),
            "max-second" => Some(SemiringName::MaxSecond),
            "max-plus" => Some(SemiringName::MaxPlus),
            "min-max" => Some(SemiringName::MinMax),
            _ => None,
        }
    }

    /// The semiring with a number, by which programs in C name it.
    pub fn numbered(number: u32) -> Option<SemiringName>
        ensures { result ≡ numbered number }
    {
        match number {
            0 => Some(SemiringName::PlusTimes),
            1 => Some(SemiringName::MinPlus),
            2 => Some(SemiringName::OrAnd),
            3 => Some(SemiringName::MaxMin),
            4 => Some(SemiringName::PlusPair),
            5 => Some(SemiringName::PlusMin),
            6 => Some(SemiringName::PlusFirst),
            7 => Some(SemiringName::PlusSecond),
            8 => Some(SemiringName::MinFirst),
            9 => Some(SemiringName::MinSecond),
            10 => Some(SemiringName::MaxFirst),
            11 => Some(SemiringName::MaxSecond),
            12 => Some(SemiringName::MaxPlus),
            13 => Some(SemiringName::MinMax),
            _ => None,
        }
    }
}

/// Calls a function over the semiring with a name. The first type argument of the call is an underscore, which stands
/// for the type of the semiring: `over_semiring!(name, multiply_all::<_, R>(rt, matrices))`.
#[macro_export]
macro_rules! over_semiring {
    ($name:expr, $call:ident::<_ $(, $other:ty)*>($($argument:expr),* $(,)?)) => {
        match $name {
            $crate::SemiringName::PlusTimes => $call::<$crate::PlusTimes $(, $other)*>($($argument),*),
            $crate::SemiringName::MinPlus => $call::<$crate::MinPlus $(, $other)*>($($argument),*),
            $crate::SemiringName::OrAnd => $call::<$crate::OrAnd $(, $other)*>($($argument),*),
            $crate::SemiringName::MaxMin => $call::<$crate::MaxMin $(, $other)*>($($argument),*),
            $crate::SemiringName::PlusPair => $call::<$crate::PlusPair $(, $other)*>($($argument),*),
            $crate::SemiringName::PlusMin => $call::<$crate::PlusMin $(, $other)*>($($argument),*),
            $crate::SemiringName::PlusFirst => $call::<$crate::PlusFirst $(, $other)*>($($argument),*),
            $crate::SemiringName::PlusSecond => $call::<$crate::PlusSecond $(, $other)*>($($argument),*),
            $crate::SemiringName::MinFirst => $call::<$crate::MinFirst $(, $other)*>($($argument),*),
            $crate::SemiringName::MinSecond => $call::<$crate::MinSecond $(, $other)*>($($argument),*),
            $crate::SemiringName::MaxFirst => $call::<$crate::MaxFirst $(, $other)*>($($argument),*),
            $crate::SemiringName::MaxSecond => $call::<$crate::MaxSecond $(, $other)*>($($argument),*),
            $crate::SemiringName::MaxPlus => $call::<$crate::MaxPlus $(, $other)*>($($argument),*),
            $crate::SemiringName::MinMax => $call::<$crate::MinMax $(, $other)*>($($argument),*),
        }
    };
}
