// A whole chunk of a feed at the boundary: one image read, one written.
// SPDX-License-Identifier: Apache-2.0
ghost use Rattle.std.specs.Prelude.{◌≡◌};
ghost use Rattle.cablegorse.specs.Chunks.{followed, stop_told, stop_part, chunked, run_put, follow_of};

use crate::{Followed, Told};
use feed::events::FeedRefusal;
use feed::following;
use feed::following::Run;
use image::{read, write};

fn followed(
    t: Told,
    part: u32,
    expected: u32,
    place: u64,
    read: u64,
    applied: u64,
    written: u64,
) -> Followed
    ensures { result ≡ followed t part expected place read applied written }
{
    Followed {
        number: t.number,
        count: t.count,
        v0: t.v0,
        v1: t.v1,
        v2: t.v2,
        v3: t.v3,
        v4: t.v4,
        part,
        expected,
        place,
        read,
        applied,
        written,
    }
}

#[tactic(auto, unfolding(crate::specs::Chunks::stop_told))]
fn stop_told(stop: Result<(), FeedRefusal>) -> Told
    ensures { result ≡ stop_told stop }
{
    match stop {
        Ok(()) => Told::new(0, &[]),
        Err(why) => Told::from(Err(why)),
    }
}

#[tactic(auto, unfolding(crate::specs::Chunks::stop_part))]
fn stop_part(stop: Result<(), FeedRefusal>) -> u32
    ensures { result ≡ stop_part stop }
{
    match stop {
        Ok(()) => 2,
        Err(_) => 1,
    }
}

// The image after the last record that was read, also where the next one can't be.
fn put_run(run: Run, next: &mut [u8]) -> Followed
    ensures { chunked result next.new ≡ run_put run next.old }
{
    let spare = run.spare;
    let size = write::image_size(spare);
    if next.len() < size {
        return followed(Told::new(21, &[size as u64]), 3, 0, 0, 0, 0, 0);
    }
    write::store_image(spare, next);
    let stop = run.stop;
    followed(
        stop_told(stop),
        stop_part(stop),
        spare.expected,
        run.place as u64,
        run.read as u64,
        run.applied as u64,
        size as u64,
    )
}

pub fn cablegorse_follow(image: &[u8], chunk: &[u8], next: &mut [u8]) -> Followed
    ensures { chunked result next.new ≡ follow_of image.now chunk.now next.old }
{
    let i = read::read_image(image);
    if let Err(why) = i.told {
        return followed(Told::from(why), 0, 0, 0, 0, 0, 0);
    }
    let spare = i.spare;
    let run = following::follow(spare, chunk);
    put_run(run, next)
}
