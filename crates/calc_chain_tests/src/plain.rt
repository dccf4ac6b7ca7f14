//! The plain program of a chain: an order in a vector, which each call goes through.

use std::alloc::{AllocError, Global};

/// Numbers in an order.
#[derive(Drop)]
pub struct PlainChain {
    order: Vec<u32>,
}

impl PlainChain {
    pub fn new(alloc: Global) -> PlainChain {
        PlainChain {
            order: Vec::new(alloc),
        }
    }

    pub fn append(&mut self, x: u32) -> Result<(), AllocError> {
        self.order.push(x)?;
        Ok(())
    }

    pub fn remove(&mut self, x: u32) {
        self.order.retain(|y| *y != x);
    }

    pub fn behind(&self, x: u32, y: u32) -> bool {
        let mut found = false;
        for z in &self.order {
            if *z == x {
                return found;
            }
            found = found || *z == y;
        }
        false
    }

    /// Takes a number out and puts it in directly behind another, where it doesn't stand behind that.
    pub fn move_behind(&mut self, x: u32, y: u32) -> Result<(), AllocError> {
        if self.behind(x, y) {
            return Ok(());
        }
        self.order.retain(|z| *z != x);
        if let Some(place) = self.order.iter().position(|z| *z == y) {
            self.order.insert(place + 1, x)?;
        }
        Ok(())
    }

    pub fn order(&self) -> &[u32] {
        &self.order
    }
}
