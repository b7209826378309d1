//! The one word that threads share: the history's length.

use crate::view::{Rule, View};
use atomic_table::Table;
use std::alloc::Global;

/// One word and no slot.
pub(crate) type Length<E> = Table<E, View<E>, (), Rule, Global>;
