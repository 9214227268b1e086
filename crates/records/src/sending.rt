// The writer of feed records: a request and its sequence number, as the bytes that a spare reads.
// SPDX-License-Identifier: Apache-2.0
ghost use Rattle.std.specs.Prelude.{◌≡◌, ◌++◌, ◌+◌, ◌*◌, ◌≤◌, Ok, length};
ghost use Rattle.records.specs.Numbers.{little, bytes_of, splice};
ghost use Rattle.records.specs.Layouts.{total};
ghost use Rattle.records.specs.Codecs.{encode_by};
ghost use Rattle.records.specs.Feeds.{numbered};
ghost use Rattle.records.specs.Sending.{normal_renewal, normal_replacement, normal_request, kind_of, has_list, ids_in, word_bytes, encode_counted, body_of, request_bytes, needed_on, leaves, send_on};
ghost use Rattle.records.specs.Code.{Held};

use crate::body::Body;
use crate::requests::{RenewRequest, ReplaceRequest, Request};
use crate::{fields, kinds, layout, writing};

const MOST_IDS: usize = kinds::UNITS as usize;

// Why nothing is written; ShortOutput holds the bytes that the record takes.
#[derive(Clone, Copy, PartialEq, Eq)]
pub enum Unsent {
    BadList,
    ListTooLong,
    ShortOutput(usize),
}

// ---- what doesn't apply is written as zero
fn normal_renewal(asked: RenewRequest) -> RenewRequest
    ensures { result ≡ normal_renewal asked }
{
    let metadata = if asked.given { asked.metadata } else { 0 };
    RenewRequest { metadata, ..asked }
}

fn normal_replacement(asked: ReplaceRequest) -> ReplaceRequest
    ensures { result ≡ normal_replacement asked }
{
    ReplaceRequest {
        lock: state::normal_form(asked.lock),
        ..asked
    }
}

fn normal_request(request: Request) -> Request
    ensures { result ≡ normal_request request }
{
    match request {
        Request::Insert(lock) => Request::Insert(state::normal_form(lock)),
        Request::InsertVehicle(lock) => Request::InsertVehicle(state::normal_form(lock)),
        Request::Renew(asked) => Request::Renew(normal_renewal(asked)),
        Request::Delete(id) => Request::Delete(id),
        Request::BeginExpiration(asked) => Request::BeginExpiration(asked),
        Request::Replace(asked) => Request::Replace(normal_replacement(asked)),
        Request::Acknowledge(id) => Request::Acknowledge(id),
        Request::ExpireDefunct(now) => Request::ExpireDefunct(now),
    }
}

// ---- the record's kind and size
fn kind_of(request: Request) -> u16
    ensures { result ≡ kind_of request }
{
    match request {
        Request::Insert(_) => kinds::INSERT,
        Request::InsertVehicle(_) => kinds::INSERT_VEHICLE,
        Request::Renew(_) => kinds::RENEW,
        Request::Delete(_) => kinds::DELETE,
        Request::BeginExpiration(_) => kinds::BEGIN_EXPIRATION,
        Request::Replace(_) => kinds::REPLACE,
        Request::Acknowledge(_) => kinds::ACKNOWLEDGE,
        Request::ExpireDefunct(_) => kinds::EXPIRE_DEFUNCT,
    }
}

fn has_list(request: Request) -> bool
    ensures { result ≡ has_list request }
{
    match request {
        Request::InsertVehicle(_) | Request::Replace(_) => true,
        _ => false,
    }
}

// The bytes that a request's record takes, or why no record can hold its list. Requests without a list don't read it.
pub fn needed(request: Request, list: &[u64]) -> Result<usize, Unsent>
    ensures { result ≡ needed_on request list.now }
{
    let kind = kind_of(request);
    if !has_list(request) {
        return Ok(layout::LENGTH + kinds::length_with(kind, 0) as usize);
    }
    if ids::is_odd(list) {
        return Err(Unsent::BadList);
    }
    let count = list.len() / 2;
    if MOST_IDS < count {
        return Err(Unsent::ListTooLong);
    }
    Ok(layout::LENGTH + kinds::length_with(kind, count as u16) as usize)
}

// ---- bodies, each from the start of its own part
fn put_numbered<B: Body>(out: &mut [u8], sequence: u32, body: B)
    requires { total (numbered B.codec).layout ≤ length out.old }
    ensures { out.new ≡ splice out.old 0 (encode_by (numbered B.codec) (sequence, body)) }
{
    fields::put_u32(out, 0, sequence);
    body.put(&mut out[layout::ASKED..layout::ASKED + B::SIZE]);
}

fn put_words(out: &mut [u8], at: usize, list: &[u64])
    requires { at + length list.now * 8 ≤ length out.old }
    ensures { out.new ≡ splice out.old at (word_bytes list.now) }
{
    for i in 0..list.len() {
        fields::put_big64(out, at + i * layout::HALF, list[i]);
    }
}

// The count, and the ids after it.
fn put_list(out: &mut [u8], at: usize, list: &[u64])
    requires { (length list.now ≤ 128) × (at + 2 + length list.now * 8 ≤ length out.old) }
    ensures { out.new ≡ splice out.old at (bytes_of (little 2) (ids_in list.now) ++ word_bytes list.now) }
{
    fields::put_u16(out, at, (list.len() / 2) as u16);
    put_words(out, at + layout::COUNT, list);
}

fn put_listed<B: Body>(out: &mut [u8], sequence: u32, body: B, list: &[u64])
    requires { (length list.now ≤ 128) × (total (numbered B.codec).layout + 2 + length list.now * 8 ≤ length out.old) }
    ensures { out.new ≡ splice out.old 0 (encode_counted (numbered B.codec) (sequence, body) list.now) }
{
    put_numbered(out, sequence, body);
    put_list(out, layout::ASKED + B::SIZE, list);
}

fn put_body(out: &mut [u8], sequence: u32, request: Request, list: &[u64])
    requires { Held request list.now (length out.old) }
    ensures { out.new ≡ splice out.old 0 (body_of sequence request list.now) }
{
    match request {
        Request::Insert(lock) => put_numbered(out, sequence, lock),
        Request::InsertVehicle(lock) => put_listed(out, sequence, lock, list),
        Request::Renew(asked) => put_numbered(out, sequence, asked),
        Request::Delete(id) => put_numbered(out, sequence, id),
        Request::BeginExpiration(asked) => put_numbered(out, sequence, asked),
        Request::Replace(asked) => put_listed(out, sequence, asked, list),
        Request::Acknowledge(id) => put_numbered(out, sequence, id),
        Request::ExpireDefunct(now) => put_numbered(out, sequence, now),
    }
}

// The record in a part that is as long as it.
fn put_record(out: &mut [u8], sequence: u32, request: Request, list: &[u64])
    requires { needed_on request list.now ≡ Ok (length out.old) }
    ensures { out.new ≡ request_bytes sequence request list.now }
{
    let size = out.len();
    let length = (size - layout::LENGTH) as u16;
    writing::put_length(out, 0, length, kind_of(request));
    put_body(
        &mut out[layout::FRAME..size],
        sequence,
        normal_request(request),
        list,
    );
}

// The record of a request, from the buffer's start on. The list counts where the request has one.
pub fn put_request(
    sequence: u32,
    request: Request,
    list: &[u64],
    out: &mut [u8],
) -> Result<usize, Unsent>
    ensures { leaves result out.new ≡ send_on sequence request list.now out.old }
{
    let size = needed(request, list)?;
    if out.len() < size {
        return Err(Unsent::ShortOutput(size));
    }
    put_record(&mut out[0..size], sequence, request, list);
    Ok(size)
}
