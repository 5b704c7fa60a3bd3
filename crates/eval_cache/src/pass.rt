//! A pass of a shared cache, which each thread that uses the cache has of its own.
//! It comes back from each call, so that a thread uses the cache in one place at a time.

ghost use Rattle.std.specs.Prelude.{◌≡◌, map, IfOk};
ghost use Rattle.lock_row.specs.Rows.{locks_of};

use crate::shard::Shard;
use lock_row::RowPass;
use std::alloc::{AllocError, Global};
use std::marker::Model;

/// A pass of a shared cache. Contracts see of which locks it is.
#[derive(Drop)]
pub struct CachePass<'a> {
    row: RowPass<Shard<'a>>,
}

impl<'a> Model for CachePass<'a> {
    ghost use Rattle.std.specs.Prelude.{List};
    ghost use Rattle.turn_lock.specs.Seen.{LockId};
    ghost use Rattle.lock_row.specs.Rows.{locks_of};
    ghost use Rattle.eval_cache.specs.declared.shard.ShardPlan.{ShardPlan};

    ghost Value = { List (LockId ShardPlan) };

    ghost view = { λ p. locks_of p.row };
}

impl<'a> CachePass<'a> {
    /// The pass that is this one of the row.
    pub(crate) fn of(row: RowPass<Shard<'a>>) -> CachePass<'a>
        ensures { result ≡ locks_of row.entry }
    {
        CachePass { row }
    }

    /// The row's pass.
    pub(crate) fn into_row(self) -> RowPass<Shard<'a>>
        ensures { locks_of result ≡ self.entry }
    {
        self.row
    }
}

/// The passes of a row, as passes of the cache.
pub(crate) fn passes_of<'a>(
    alloc: Global,
    rows: Vec<RowPass<Shard<'a>>>,
) -> Result<Vec<CachePass<'a>>, AllocError>
    ensures { IfOk result (λ made. made.items ≡ map locks_of rows.entry.items) }
{
    let mut made = Vec::with_capacity(alloc, rows.len())?;
    for row in rows {
        made.push_reserved(CachePass::of(row));
    }
    Ok(made)
}
