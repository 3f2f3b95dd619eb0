//! The numbered values: the range of each, and how it is written.
ghost use Rattle.std.proofs.Common.{arith};
ghost use Rattle.exam_types.specs.Numbers as spec;

use crate::numerals::{Decimal, HourAndMinute, SevenDigits};
use crate::ranged::{Form, Ranged};

/// The least candidate number.
pub const LEAST_NUMBER: u32 = 1;

/// The greatest candidate number.
pub const GREATEST_NUMBER: u32 = 9_999_999;

/// A candidate number, 0000001 to 9999999. Contracts see the number.
pub type Number = Ranged<u32, NumberForm>;

/// The range and the spelling of a [`Number`].
pub struct NumberForm;

impl Form for NumberForm {
    type Spelling = SevenDigits;

    ghost least = { 1 };

    ghost greatest = { 9999999 };

    ghost in_range = { spec.IsNumber };

    fn is_in_range(number: u32) -> bool {
        (LEAST_NUMBER..=GREATEST_NUMBER).contains(&number)
    }

    ghost is_spelled = { λ n h. Prim.omega arith };

    ghost is_between = { λ n. (λ h. h, λ h. h) };
}

/// The greatest time.
pub const GREATEST_MINUTE: u32 = 2639;

/// A time, 00:00 to 43:59, in minutes from the start of a session's day. From 24:00 on it is on the next day. Contracts
/// see the number.
pub type Minute = Ranged<u16, MinuteForm>;

/// The range and the spelling of a [`Minute`].
pub struct MinuteForm;

impl Form for MinuteForm {
    type Spelling = HourAndMinute;

    ghost least = { 0 };

    ghost greatest = { 2639 };

    ghost in_range = { spec.IsMinute };

    fn is_in_range(number: u32) -> bool {
        number <= GREATEST_MINUTE
    }

    ghost is_spelled = { λ n h. Prim.omega arith };

    ghost is_between = { λ n. (λ h. (Prim.omega arith, h), λ h. h.1) };
}

/// The greatest start of a session.
pub const GREATEST_START: u32 = 1439;

/// The start of a session, 00:00 to 23:59, in minutes from the start of the day. Contracts see the number.
pub type StartTime = Ranged<u16, StartTimeForm>;

/// The range and the spelling of a [`StartTime`].
pub struct StartTimeForm;

impl Form for StartTimeForm {
    type Spelling = HourAndMinute;

    ghost least = { 0 };

    ghost greatest = { 1439 };

    ghost in_range = { spec.IsStartTime };

    fn is_in_range(number: u32) -> bool {
        number <= GREATEST_START
    }

    ghost is_spelled = { λ n h. Prim.omega arith };

    ghost is_between = { λ n. (λ h. (Prim.omega arith, h), λ h. h.1) };
}

/// The greatest closing time.
pub const GREATEST_CLOSING: u32 = 1440;

/// Until when a hall is open, 00:00 to 24:00, in minutes from the start of the day. Contracts see the number.
pub type ClosingTime = Ranged<u16, ClosingTimeForm>;

/// The range and the spelling of a [`ClosingTime`].
pub struct ClosingTimeForm;

impl Form for ClosingTimeForm {
    type Spelling = HourAndMinute;

    ghost least = { 0 };

    ghost greatest = { 1440 };

    ghost in_range = { spec.IsClosingTime };

    fn is_in_range(number: u32) -> bool {
        number <= GREATEST_CLOSING
    }

    ghost is_spelled = { λ n h. Prim.omega arith };

    ghost is_between = { λ n. (λ h. (Prim.omega arith, h), λ h. h.1) };
}

/// The least length of a paper, in minutes.
pub const LEAST_EXAM_MINUTES: u32 = 1;

/// The greatest length of a paper, in minutes.
pub const GREATEST_EXAM_MINUTES: u32 = 600;

/// The length of a paper, 1 to 600 minutes. Contracts see the number.
pub type ExamMinutes = Ranged<u16, ExamMinutesForm>;

/// The range and the spelling of [`ExamMinutes`].
pub struct ExamMinutesForm;

impl Form for ExamMinutesForm {
    type Spelling = Decimal;

    ghost least = { 1 };

    ghost greatest = { 600 };

    ghost in_range = { spec.IsExamMinutes };

    fn is_in_range(number: u32) -> bool {
        (LEAST_EXAM_MINUTES..=GREATEST_EXAM_MINUTES).contains(&number)
    }

    ghost is_spelled = { λ n h. Prim.omega arith };

    ghost is_between = { λ n. (λ h. h, λ h. h) };
}

/// The greatest extra time, in percent.
pub const GREATEST_EXTRA: u32 = 100;

/// Extra time, 0 to 100 percent. Contracts see the number.
pub type Extra = Ranged<u16, ExtraForm>;

/// The range and the spelling of [`Extra`].
pub struct ExtraForm;

impl Form for ExtraForm {
    type Spelling = Decimal;

    ghost least = { 0 };

    ghost greatest = { 100 };

    ghost in_range = { spec.IsExtra };

    fn is_in_range(number: u32) -> bool {
        number <= GREATEST_EXTRA
    }

    ghost is_spelled = { λ n h. Prim.omega arith };

    ghost is_between = { λ n. (λ h. (Prim.omega arith, h), λ h. h.1) };
}

/// The least desk count of an opening.
pub const LEAST_DESKS: u32 = 1;

/// The greatest desk count of an opening.
pub const GREATEST_DESKS: u32 = 2000;

/// The desks of an opening, 1 to 2000. Contracts see the number.
pub type DeskCount = Ranged<u32, DeskCountForm>;

/// The range and the spelling of a [`DeskCount`].
pub struct DeskCountForm;

impl Form for DeskCountForm {
    type Spelling = Decimal;

    ghost least = { 1 };

    ghost greatest = { 2000 };

    ghost in_range = { spec.IsDeskCount };

    fn is_in_range(number: u32) -> bool {
        (LEAST_DESKS..=GREATEST_DESKS).contains(&number)
    }

    ghost is_spelled = { λ n h. Prim.omega arith };

    ghost is_between = { λ n. (λ h. h, λ h. h) };
}
