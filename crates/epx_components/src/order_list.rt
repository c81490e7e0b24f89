//! The instances in execution order.
ghost use Rattle.std.specs.Prelude.{◌≡◌, ◌==◌, ◌<◌, length, slice_get, Some, IfOk};
ghost use Rattle.epx_types.specs.ExecutionOrder.{Ranked, ranked_ids, component_count};
ghost use Rattle.epx_components.specs.Ranks.{ranked_all};

use crate::rank::Rank;
use epx_types::{Id, Memory};
use std::alloc::Global;
use std::marker::Model;

/// The ready instances in execution order, each with the leader and the depth of its component.
///
/// It takes eight words of memory an instance. Its methods allocate nothing.
#[derive(Debug, Drop)]
pub struct OrderList {
    ranks: Vec<Rank>,
    /// The Ids of the ranks, in one slice for `ids`.
    ids: Vec<Id>,
}

impl Model for OrderList {
    ghost use Rattle.std.specs.Prelude.{◌≡◌, List};
    ghost use Rattle.epx_types.specs.ExecutionOrder.{Ranked, ranked_ids};
    ghost use Rattle.epx_components.specs.Ranks.{ranked_all};

    ghost Value = { List Ranked };

    ghost view = { λ o. ranked_all o.ranks.items };

    ghost invariant = { λ o. o.ids.items ≡ ranked_ids (ranked_all o.ranks.items) };
}

impl OrderList {
    /// The list of the instances that have these ranks. It keeps the order of the ranks, so
    /// callers sort them before.
    pub fn new(alloc: Global, ranks: Vec<Rank>) -> Result<OrderList, Memory>
        ensures { IfOk result (λ order. order ≡ ranked_all ranks.items) }
    {
        let ids = ids_of(alloc, &ranks)?;
        Ok(OrderList { ranks, ids })
    }

    /// The number of ready instances.
    pub fn len(&self) -> usize
        ensures { result ≡ length self.now }
    {
        self.ranks.len()
    }

    /// Whether no instance is ready.
    pub fn is_empty(&self) -> bool
        ensures { result ≡ (length self.now == 0) }
    {
        self.ranks.is_empty()
    }

    /// The instances, in execution order.
    pub fn ids(&self) -> &[Id]
        ensures { result.now ≡ ranked_ids self.now }
    {
        &self.ids
    }

    /// The number of components of the instances, in linear time.
    pub fn component_count(&self) -> usize
        ensures { result ≡ component_count self.now }
    {
        count_leaders(&self.ranks)
    }

    /// The leader of the component of the instance at a position. The leader is the least member.
    pub fn component_of(&self, position: usize) -> Id
        requires { position < length self.now }
        ensures { (r : Ranked) × (slice_get self.now position ≡ Some r) × (r.leader ≡ result) }
    {
        self.ranks[position].leader
    }

    /// The depth of the component of the instance at a position: the largest number of components
    /// that follow it in one chain, in which each reaches the next.
    pub fn depth_of(&self, position: usize) -> usize
        requires { position < length self.now }
        ensures { (r : Ranked) × (slice_get self.now position ≡ Some r) × (r.depth ≡ result) }
    {
        self.ranks[position].depth
    }
}

/// The Ids of the instances that have these ranks.
fn ids_of(alloc: Global, ranks: &[Rank]) -> Result<Vec<Id>, Memory>
    ensures { IfOk result (λ ids. ids.items ≡ ranked_ids (ranked_all ranks.now)) }
{
    let mut ids = Vec::with_capacity(alloc, ranks.len())?;
    for rank in ranks {
        ids.push(rank.id)?;
    }
    Ok(ids)
}

/// The number of instances that are the leaders of their components.
fn count_leaders(ranks: &[Rank]) -> usize
    ensures { result ≡ component_count (ranked_all ranks.now) }
{
    let mut count = 0;
    for rank in ranks {
        if rank.id == rank.leader {
            count += 1;
        }
    }
    count
}
