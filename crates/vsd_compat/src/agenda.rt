//! The order in which rows are filled where few of them still change: a row that has gained bits wakes those that want
//! it. No answer rests on this order, only the time that is taken, so nothing is promised of the lists here.

use std::alloc::{AllocError, Global};
use std::collections::VecDeque;
use vsd_types::Closed;

/// Which rows want a row.
#[derive(Drop)]
pub(crate) struct Links {
    // For each type, those whose base or named interface it is.
    below: Vec<Vec<u16>>,
    // For each type, the interfaces that have it as an argument.
    users: Vec<Vec<u16>>,
}

impl Links {
    pub(crate) fn new(alloc: Global, closed: &Closed) -> Result<Links, AllocError> {
        let count = closed.count();
        let mut below = empty_lists(alloc, count)?;
        let mut users = empty_lists(alloc, count)?;
        for t in 0..count {
            if let Some(base) = closed.base(t) {
                put(&mut below, base, t)?;
            }
            for interface in closed.named(t) {
                put(&mut below, *interface, t)?;
            }
            for argument in closed.args(t) {
                put(&mut users, *argument, t)?;
            }
        }
        Ok(Links { below, users })
    }

    pub(crate) fn below(&self, t: u16) -> &[u16] {
        list_at(&self.below, t)
    }

    pub(crate) fn users(&self, t: u16) -> &[u16] {
        list_at(&self.users, t)
    }
}

fn empty_lists(alloc: Global, count: u16) -> Result<Vec<Vec<u16>>, AllocError> {
    let mut lists = Vec::new(alloc);
    for _ in 0..count {
        lists.push(Vec::new(alloc))?;
    }
    Ok(lists)
}

fn put(lists: &mut Vec<Vec<u16>>, at: u16, item: u16) -> Result<(), AllocError> {
    if let Some(list) = lists.get_mut(usize::from(at)) {
        list.push(item)?;
    }
    Ok(())
}

fn list_at(lists: &[Vec<u16>], at: u16) -> &[u16] {
    match lists.get(usize::from(at)) {
        Some(list) => list.as_slice(),
        None => &[],
    }
}

/// Rows that have gained bits, each once, the longest waiting first.
#[derive(Drop)]
pub(crate) struct Agenda {
    rows: VecDeque<u16>,
    waits: Vec<bool>,
}

impl Agenda {
    /// Every row waits.
    pub(crate) fn new(alloc: Global, count: u16) -> Result<Agenda, AllocError> {
        let mut rows = VecDeque::new(alloc);
        let mut waits = Vec::new(alloc);
        for t in 0..count {
            rows.push_back(t)?;
            waits.push(true)?;
        }
        Ok(Agenda { rows, waits })
    }

    pub(crate) fn add(&mut self, t: u16) -> Result<(), AllocError> {
        let Some(waits) = self.waits.get_mut(usize::from(t)) else {
            return Ok(());
        };
        if *waits {
            return Ok(());
        }
        *waits = true;
        self.rows.push_back(t)?;
        Ok(())
    }

    pub(crate) fn take(&mut self) -> Option<u16> {
        let t = self.rows.pop_front()?;
        if let Some(waits) = self.waits.get_mut(usize::from(t)) {
            *waits = false;
        }
        Some(t)
    }
}
