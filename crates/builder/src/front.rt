// What stands before the parts of a built image: header, records, entries and names.
ghost use Rattle.std.specs.Prelude.{◌≡◌, ◌+◌, ◌*◌, ◌-◌, ◌<◌, ◌≤◌, length};
ghost use Rattle.image.specs.Of.{◌of◌};
ghost use Rattle.image.specs.Ranges.{pieces};
ghost use Rattle.image.specs.Record.{node_count};
ghost use Rattle.image.specs.Types.{name_of};
ghost use Rattle.image.specs.Built.{name_start};
ghost use Rattle.laws.specs.Accepted.{Named};
ghost use Rattle.rows.specs.Output.{over, Fits, Put};
ghost use Rattle.builder.specs.Front.{length_from, built_flags, built_name, bitmap_from, type_fields, row_fields, table_fields, record_from, entry_from, entries_from, front_from};

use crate::plan::Plan;
use fill::put::PARTS;
use image::record::{Node, buffer_total, node_count, tables_end};
use image::type_code::TypeCode;
use rows::output::Output;

// A built bitmap has the bit of row 0 first.
const FIRST_BIT: usize = 0;

// The flags of a node: nullable as given, and a bitmap where the code may have one.
fn built_flags(node: Node) -> usize
    ensures { result ≡ built_flags of node.entry }
{
    let nullable = usize::from(node.flags()) % 2;
    if TypeCode::takes_bitmap(node.code()) {
        return nullable + 2;
    }
    nullable
}

// Where the name of a node stands, 0 where it has none; `name` is where it would stand.
// Kept: the format has 0 where there is none.
fn built_name(node: Node, name: usize) -> usize
    requires { name ≡ name_start of node }
    ensures { result ≡ built_name of node.entry }
{
    if node.name_length() == 0 {
        return 0;
    }
    name
}

// The first fields of a node's record: its code, flags, name length, p1 and p2.
fn put_type(node: Node, out: &mut Output)
    requires { Fits out.old.bytes.now out.old.at (type_fields of node) }
    ensures { Put out.old out.new (type_fields of node.entry) }
{
    out.put_number(usize::from(node.code()), 1);
    out.put_number(built_flags(node), 1);
    out.put_number(0, 1);
    out.put_number(node.name_length(), 1);
    out.put_number(node.p1(), 4);
    out.put_number(node.p2(), 4);
}

// The last fields: the children and the buffers.
fn put_tables(node: Node, out: &mut Output)
    requires { Fits out.old.bytes.now out.old.at (table_fields of node) }
    ensures { Put out.old out.new (table_fields of node.entry) }
{
    out.put_number(node.first_child() as usize, 2);
    out.put_number(node.child_count() as usize, 2);
    out.put_number(node.first_buffer() as usize, 2);
    out.put_number(node.buffer_count() as usize, 2);
}

// The name of a node. A name without bytes may be said to stand anywhere, and is not read.
fn put_name(node: Node, out: &mut Output)
    requires named { Named of node }
    requires fits { Fits out.old.bytes.now out.old.at (name_of of node) }
    ensures { Put out.old out.new (name_of of node.entry) }
{
    let n = node.name_length();
    if n == 0 {
        return;
    }
    let place = node.name_place();
    out.put_bytes(&node.image[place..place + n]);
}

impl Plan<'_> {
    // Where the bitmap of a node stands, 0 where its code may have none.
    // Kept: the format has 0 where there is none.
    fn bitmap_from(&self, node: Node) -> usize
        requires { node.number < 256 }
        ensures { result ≡ bitmap_from node.entry.image.now self.now.places node.entry.number }
    {
        if TypeCode::takes_bitmap(node.code()) {
            return self.places[PARTS * node.number as usize];
        }
        0
    }

    // How many bytes part q has.
    fn length_from(&self, q: usize) -> usize
        requires { q < 3 * node_count self.now.image.now }
        ensures { result ≡ length_from self.now.places q }
    {
        self.places[q + 1] - self.places[q]
    }

    // The next fields of the record of node k: the rows, the name's place, the bitmap's place and length; `name` is where the
    // name would stand.
    fn put_rows(&self, k: u32, name: usize, out: &mut Output)
        requires node { k < node_count self.now.image.now }
        requires name { name ≡ name_start self.now.image.now k }
        requires fits { Fits out.old.bytes.now out.old.at (row_fields self.now.image.now self.now.lengths self.now.places k) }
        ensures { Put out.old out.new (row_fields self.now.image.now self.now.lengths self.now.places k) }
    {
        let node = self.node(k);
        out.put_number(self.lengths[k as usize], 4);
        out.put_number(0, 4);
        out.put_number(built_name(node, name), 4);
        out.put_number(self.bitmap_from(node), 4);
        out.put_number(self.length_from(PARTS * k as usize), 4);
        out.put_number(FIRST_BIT, 4);
    }

    // The record of node k; `name` is where its name would stand.
    fn put_record(&self, k: u32, name: usize, out: &mut Output)
        requires node { k < node_count self.now.image.now }
        requires name { name ≡ name_start self.now.image.now k }
        requires fits { Fits out.old.bytes.now out.old.at (record_from self.now.image.now self.now.lengths self.now.places k) }
        ensures { Put out.old out.new (record_from self.now.image.now self.now.lengths self.now.places k) }
    {
        let node = self.node(k);
        put_type(node, out);
        self.put_rows(k, name, out);
        put_tables(node, out);
    }

    // The records of all nodes.
    fn put_records(&self, out: &mut Output)
        requires { Fits out.old.bytes.now out.old.at (pieces (record_from self.now.image.now self.now.lengths self.now.places) 0 (node_count self.now.image.now)) }
        ensures { Put out.old out.new (pieces (record_from self.now.image.now self.now.lengths self.now.places) 0 (node_count self.now.image.now)) }
    {
        let mut name = tables_end(self.image);
        for k in 0..node_count(self.image) {
            self.put_record(k, name, out);
            name += self.node(k).name_length();
        }
    }

    // The entry of a buffer, which is part q: its place and its length.
    fn put_entry(&self, q: usize, out: &mut Output)
        requires part { q < 3 * node_count self.now.image.now }
        requires fits { Fits out.old.bytes.now out.old.at (entry_from self.now.places q) }
        ensures { Put out.old out.new (entry_from self.now.places q) }
    {
        out.put_number(self.places[q], 4);
        out.put_number(self.length_from(q), 4);
    }

    // The entries of node k's buffers, which are its parts from 1 on.
    fn put_entries(&self, k: u32, out: &mut Output)
        requires node { k < node_count self.now.image.now }
        requires fits { Fits out.old.bytes.now out.old.at (entries_from self.now.image.now self.now.places k) }
        ensures { Put out.old out.new (entries_from self.now.image.now self.now.places k) }
    {
        let first = PARTS * k as usize + 1;
        let n = self.node(k).buffer_count() as usize;
        for j in 0..n {
            self.put_entry(first + j, out);
        }
    }

    // The entries of all nodes.
    fn put_all_entries(&self, out: &mut Output)
        requires { Fits out.old.bytes.now out.old.at (pieces (entries_from self.now.image.now self.now.places) 0 (node_count self.now.image.now)) }
        ensures { Put out.old out.new (pieces (entries_from self.now.image.now self.now.places) 0 (node_count self.now.image.now)) }
    {
        for k in 0..node_count(self.image) {
            self.put_entries(k, out);
        }
    }

    // The names of all nodes.
    fn put_names(&self, out: &mut Output)
        requires { Fits out.old.bytes.now out.old.at (pieces (name_of self.now.image.now) 0 (node_count self.now.image.now)) }
        ensures { Put out.old out.new (pieces (name_of self.now.image.now) 0 (node_count self.now.image.now)) }
    {
        for k in 0..node_count(self.image) {
            put_name(self.node(k), out);
        }
    }

    // Header, records, entries and names, from the buffer's start on. The answer is the place behind them.
    pub(crate) fn put_front(&self, out: &mut [u8]) -> usize
        requires { Fits out.old 0 (front_from self.now.image.now self.now.lengths self.now.places) }
        ensures value { result ≡ length (front_from self.now.image.now self.now.lengths self.now.places) }
        ensures out_after { out.new ≡ over out.old 0 (front_from self.now.image.now self.now.lengths self.now.places) }
    {
        let mut front = Output { bytes: out, at: 0 };
        front.put_number(node_count(self.image) as usize, 2);
        front.put_number(buffer_total(self.image) as usize, 2);
        self.put_records(&mut front);
        self.put_all_entries(&mut front);
        self.put_names(&mut front);
        front.at
    }
}
