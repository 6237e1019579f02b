// One side's store.
use crate::reply::{Refusal, Reply, written_reply};
use crate::sizes::STORE;
use api::{check, write};
use image::answer::Side;

// Kept: an array of its own, as the documents have it; `Line` says why the two are not one struct.
#[derive(Clone, Copy)]
pub struct Store {
    pub bytes: [u8; STORE],
    // how many of them are used; where it says more than there are, all are, and no piece fits
    pub used: usize,
    // Kept: open or closed, a store has the same fields; an enum would say them twice.
    pub closed: bool,
}

impl Store {
    ghost use Rattle.std.specs.Prelude.{◌≡◌, replicate};
    ghost use Rattle.session.specs.Steps.{side_stepped, emptied, image_of, accepted_of, piece_side, piece_store, close_side, write_reply, write_out};
    ghost use Rattle.session.specs.Stores.{side_of_store, lent_of};

    // A store that is empty and open.
    pub(crate) fn new() -> Store
        ensures side { side_of_store result ≡ emptied }
        ensures bytes { result.bytes ≡ replicate 24576 0 }
    {
        Store {
            bytes: [0; STORE],
            used: 0,
            closed: false,
        }
    }

    // The side's image: what was stored, and not the whole store.
    fn image(&self) -> &[u8]
        ensures { result.now ≡ image_of (side_of_store self.now) self.now.bytes }
    {
        &self.bytes[..self.used.min(STORE)]
    }

    // The image of a side that is closed: refused where it is open.
    pub(crate) fn accepted(&self) -> Result<&[u8], Refusal>
        ensures { lent_of result ≡ accepted_of (side_of_store self.now) self.now.bytes }
    {
        if !self.closed {
            return Err(Refusal::Open);
        }
        Ok(self.image())
    }

    // A piece: refused where the side is closed, or where the piece does not fit into the store.
    pub(crate) fn piece(&mut self, piece: &[u8]) -> Result<Reply, Refusal>
        ensures side_after { side_stepped (side_of_store self.new) result ≡ piece_side self.old.bytes (side_of_store self.old) piece.now }
        ensures bytes_after { self.new.bytes ≡ piece_store self.old.bytes (side_of_store self.old) piece.now }
    {
        if self.closed {
            return Err(Refusal::Closed);
        }
        let end = self.used.saturating_add(piece.len());
        if end > STORE {
            return Err(Refusal::PastStore);
        }
        self.bytes[self.used..end].copy_from_slice(piece);
        self.used = end;
        Ok(Reply::Done)
    }

    // The side's close: refused where it is closed; a side whose image is refused is emptied.
    pub(crate) fn close(&mut self) -> Result<Reply, Refusal>
        ensures side_after { side_stepped (side_of_store self.new) result ≡ close_side self.old.bytes (side_of_store self.old) }
        ensures bytes_after { self.new.bytes ≡ self.old.bytes }
    {
        if self.closed {
            return Err(Refusal::Closed);
        }
        match check(self.image()) {
            Ok(()) => {
                self.closed = true;
                Ok(Reply::Done)
            }
            Err(fault) => {
                self.empty();
                Err(Refusal::Faulty(fault))
            }
        }
    }

    // A write of rows: refused where the side is open.
    pub(crate) fn write(
        &self,
        side: Side,
        i: usize,
        n: usize,
        out: &mut [u8],
    ) -> Result<Reply, Refusal>
        ensures value { result ≡ write_reply self.now.bytes (side_of_store self.now) side i n out.old }
        ensures out_after { out.new ≡ write_out self.now.bytes (side_of_store self.now) i n out.old }
    {
        written_reply(write(self.accepted()?, i, n, out), side)
    }

    // Empty and open.
    pub(crate) fn empty(&mut self)
        ensures side_after { side_of_store self.new ≡ emptied }
        ensures bytes_after { self.new.bytes ≡ self.old.bytes }
    {
        self.used = 0;
        self.closed = false;
    }
}
