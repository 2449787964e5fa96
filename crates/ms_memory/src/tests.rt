//! A lock whose value has another number than the service around it.

ghost use Rattle.std.specs.Prelude.{◌≡◌, [], ◌∷◌, Some, IfSome};
ghost use mathlib.Core.List.{IsPrefix};
ghost use Rattle.ms_core.specs.Views.{configuration};
ghost use Rattle.ms_ken.specs.Known.{ArePasses};
ghost use Rattle.ms_ken.specs.Lists.{list_at};
ghost use Rattle.ms_record.specs.declared.item.Item.TheVariants.{Untold};

use crate::{MemoryLink, MemoryService, ServiceState};
use ms_base::ServiceId;
use ms_core::{Common, FoldClosed, Know};
use ms_ken::{Board, Naming};
use ms_link::Link;
use ms_record::{Item, ListId};
use std::alloc::Global;
use std::marker::Brand;
use std::sync::{Arc, Mutex, Wait};
use std::test::*;

/// The passes of the configuration, which tells that nothing is claimed, and of service 0, which knows it.
fn begun(board: &Common, mut passes: Vec<Know>) -> Option<(Know, Know)>
    requires { ArePasses board.now 33 passes.items }
    ensures configuration { IfSome result (λ r. r.0.board ≡ board.now) }
    ensures service { IfSome result (λ r. (r.1.board ≡ board.now) × (r.1.word ≡ Some 0) × (list_at r.1.lists 0 ≡ []) × IsPrefix (Untold ∷ []) (list_at r.1.lists configuration)) }
{
    let mut configuration = passes.pop()?;
    passes.truncate(1);
    let mut service = passes.pop()?;
    board.tell(&mut configuration, &Item::Untold);
    board.take(&mut service, board.note(&mut configuration));
    Some((configuration, service))
}

fn refuses_on<J: Naming, R: Wait + Drop + Copy>(
    rt: R,
    alloc: Global,
    board: &Common,
    passes: Vec<Know>,
) -> Result<bool, Fail>
    requires board { board.now ≡ J.board }
    requires passes { ArePasses board.now 33 passes.items }
{
    let (mut pass, service) = begun(board, passes).ok_or("two passes")?;
    let home = MemoryService::<J> {
        service: ServiceId(1),
        state: Mutex::new(ServiceState::new(alloc, ServiceId(0), service)),
    };
    let mut link = MemoryLink::new(rt, Arc::new(alloc, home)?);
    Ok(link.list(alloc, board, &mut pass, ListId(0), 0).is_err())
}

#[test]
fn a_lock_of_another_number(rt: HostRuntime) -> Result<(), Fail> {
    let (board, passes) = Board::<FoldClosed>::new(rt.alloc(), 33)?;
    assert!(&rt; refuses_on::<Brand, _>(rt, rt.alloc(), &board, passes)?);
    Ok(())
}
