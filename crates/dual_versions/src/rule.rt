//! The rule of a board: its tables form one list, and each view is a beginning of it.

use crate::published::Published;
use crate::table::{Put, Table};
use crossbeam_utils::rule::{Outcome, Protocol};
use left_right::reader::Reader;
use left_right::writer::Writer;
use std::collections::LinkedList;

/// What a reader or the writer knows of the list of tables shown. No value of it is made.
pub struct View {
    /// The list as it was seen.
    pub seen: LinkedList<LinkedList<Option<Published>>>,
    /// Whether this is the writer, who has shown a table and knows the whole list.
    pub writes: bool,
}

/// The rule that the writer and the readers keep.
pub struct OneList;

impl Protocol<Table, View> for OneList {
    ghost use Rattle.dual_versions.specs.Views.{IsKept, newcomer};

    ghost holds = { IsKept };

    ghost first = { newcomer };
}

/// A reader enters.
pub struct Enters;

impl Outcome<Table, View> for Enters {
    ghost use Rattle.dual_versions.specs.Views.{Entered};

    ghost then = { Entered };
}

/// The writer shows a table.
pub struct Shows;

impl Outcome<Table, View> for Shows {
    ghost use Rattle.dual_versions.specs.Views.{Shown};

    ghost then = { Shown };
}

/// A reader's end of `left_right`.
pub type TableReader = Reader<Table, View, OneList>;

/// The writer's end of `left_right`.
pub type TableWriter = Writer<Table, Put, View, OneList>;
