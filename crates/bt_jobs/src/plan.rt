//! What a part has of each file of a torrent.
ghost use Rattle.std.specs.Prelude.{◌≡◌, ◌+◌, ◌<◌, ◌≤◌, ◌^◌, ◌++◌, [], ◌∷◌, List, Some, map, length, max, IfOk, OnOk};
ghost use Rattle.std.specs.List.{All};
ghost use Rattle.bt_meta.specs.Limits.{max_file_count};
ghost use Rattle.bt_meta.specs.Files.{File, file_of};
ghost use Rattle.bt_check.specs.EntryCheck.{IsCheckable};
ghost use Rattle.bt_jobs.specs.Plan.{AreShares};
ghost use Rattle.bt_jobs.specs.PlanSteps.{ArePlacesOf, IsPlanOf, place_in};

use bt_check::{PieceSize, key_of};
use bt_meta::FileEntry;
use bt_parts::{Cut, Part, Share, blocks_of, share_of, unit_of};
use bt_tree::Hash32;
use std::alloc::{AllocError, Global};
use std::collections::BTreeMap;

/// What a part has of each of these files.
pub fn shares_of(
    alloc: Global,
    files: &[FileEntry],
    size: PieceSize,
    part: Part,
) -> Result<Vec<Share>, AllocError>
    requires few { length files.now ≤ max_file_count }
    requires checkable { All (IsCheckable size.layer) (map file_of files.now) }
    ensures { IfOk result (λ shares. AreShares size.layer part
        (map file_of files.now) shares.items) }
{
    let plan = Plan::new(alloc, files, size)?;
    let mut shares = Vec::new(alloc);
    for cut in &plan.cuts {
        let share = share_of(part, plan.total, *cut);
        shares.push(share)?;
    }
    Ok(shares)
}

/// Where each file lies among the bytes that are counted through, and how many these are. Files of one root and length
/// lie at one place, so that one part has the same blocks of all of them: what it learns of one is of use for the
/// others.
#[derive(Drop)]
struct Plan {
    cuts: Vec<Cut>,
    total: u64,
}

impl Plan {
    fn new(alloc: Global, files: &[FileEntry], size: PieceSize) -> Result<Plan, AllocError>
        requires few { length files.now ≤ max_file_count }
        requires checkable { All (IsCheckable size.layer) (map file_of files.now) }
        ensures { IfOk result (IsPlanOf size.layer (map file_of files.now)) }
    {
        let mut places = Places {
            known: BTreeMap::new(alloc),
            total: 0,
        };
        let mut cuts = Vec::new(alloc);
        for file in files {
            let place = places.place_of(file)?;
            cuts.push(Cut {
                place,
                blocks: blocks_of(file.length),
                unit: unit_of(file, size),
            })?;
        }
        Ok(Plan {
            cuts,
            total: places.total,
        })
    }
}

/// Where the files so far lie, by root and length, and how many bytes are counted.
#[derive(Drop)]
struct Places {
    known: BTreeMap<(Hash32, u64), u64>,
    total: u64,
}

impl Places {
    /// Where a file lies: after all others, if none of them has its root and length.
    fn place_of(&mut self, file: &FileEntry) -> Result<u64, AllocError>
        requires { self.old.total + max 1 file.now.length < 2 ^ 64 }
        ensures known { IfOk result (λ place. place_in self.new (file_of file.now) ≡ Some place) }
        ensures placed { OnOk result ((files : List File) → ArePlacesOf files self.old
            → ArePlacesOf (files ++ file_of file.now ∷ []) self.new) }
    {
        if let Some(place) = self.known.get(&key_of(file)) {
            return Ok(*place);
        }
        let place = self.total;
        self.known.insert(key_of(file), place)?;
        self.total += file.length.max(1);
        Ok(place)
    }
}
