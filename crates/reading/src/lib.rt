// Requests read from the bytes of a file.
#![tactic(auto)]

ghost use Rattle.std.specs.Prelude.{◌≡◌, [], ◌+◌, ◌≤◌, ◌<◌, length, take, drop, Ok, IfOk};
ghost use Rattle.request.specs.View.{view_demand};
ghost use Rattle.reading.specs.Reading.{band_in, check_band_field, link_in, check_link_field, demand_tag, asked_in, demand_in, check_new_demand, links_end, read_links, read_demands, with_links, read_file};
ghost use Rattle.fields.specs.Field.{check_field};
ghost use Rattle.request.specs.Packing.{padded, pack_demand};
ghost use Rattle.reading.specs.FilePacking.{pack_reading};
ghost use Rattle.reading.specs.inner.PartsPacking.{pack_links, pack_demands, band_read};

use fields::{check_field, number_in};
use grid::Band;
use refusal::Refusal;
use request::{Asked, Demand, Link, Request, empty_request, test_demand};

// The links of a file: how many, and where the field behind them stands.
// Kept as it is: an array with its count, here and in the demands, as there is no heap; `Request`, which is public, has them so.
#[derive(Drop)]
struct LinksFound {
    count: usize,
    end: usize,
    links: [Link; 64],
}

// The demands of a file.
#[derive(Drop)]
struct DemandsFound {
    count: usize,
    demands: [Demand; 200],
}

// The request that a file holds, or the first fault in file order with the offset of its field.
pub fn read_request(file: &[u8]) -> Result<Request, Refusal>
    ensures { result ≡ pack_reading (read_file file.now) }
{
    if Request::MOST_BYTES < file.len() {
        return Err(Refusal::FileTooLong(Request::MOST_BYTES));
    }
    let band = read_band(file)?;
    read_behind(file, band)
}

// The links and the demands, behind a band that was read.
fn read_behind(file: &[u8], band: Band) -> Result<Request, Refusal>
    requires { 8 ≤ length file.now }
    ensures { result ≡ pack_reading (with_links file.now band (read_links 65 file.now 8 [])) }
{
    let LinksFound {
        count: link_count,
        end,
        links,
    } = read_links(file)?;
    let DemandsFound {
        count: demand_count,
        demands,
    } = read_demands(file, end, band.slots, links, link_count)?;
    Ok(Request {
        band,
        link_count,
        links,
        demand_count,
        demands,
    })
}

// The band's field: 2 where the file is empty, 1, 2, 3, then 4.
fn read_band(file: &[u8]) -> Result<Band, Refusal>
    ensures { result ≡ band_read (check_band_field file.now) (band_in file.now) }
{
    if file.is_empty() {
        return Err(Refusal::WrongTag(0));
    }
    check_field(file, 0, 1, 5, 5)?;
    Band::new(
        number_in(file, 3).cast_signed(),
        number_in(file, 5),
        file[7],
    )
}

// The links one by one, from behind the band to the end of the file or the first demand.
// Kept as it is: the number of links stands beside a fixed array, as there is no heap; and where the next field begins is an offset in bytes,
// with which a fault is told: an iterator over fields would answer a Result for each and stop at the first fault, which is no plainer.
fn read_links(file: &[u8]) -> Result<LinksFound, Refusal>
    requires { 8 ≤ length file.now }
    ensures value { result ≡ pack_links (read_links 65 file.now 8 []) }
    ensures end_in_bounds { IfOk result (λ found. found.end ≤ length file.now) }
{
    let mut links = [Link { from: 0, to: 0 }; 64];
    let mut count = 0;
    let mut at = 8;
    while !links_end(file, at, count) {
        check_link_field(file, at, count)?;
        links[count] = link_in(file, at);
        count += 1;
        at += 5;
    }
    Ok(LinksFound {
        count,
        end: at,
        links,
    })
}

// The links end, after one at least, where the file ends or a demand's tag stands, 03 or 05.
fn links_end(file: &[u8], at: usize, count: usize) -> bool
    requires { at ≤ length file.now }
    ensures { result ≡ links_end file.now at count }
{
    count != 0 && (at == file.len() || file[at] == 3 || file[at] == 5)
}

// A link's field after `count` links: 2 where the file has ended, 1, 2, 3, then 5: the count, then the ends.
fn check_link_field(file: &[u8], at: usize, count: usize) -> Result<(), Refusal>
    requires { at ≤ length file.now }
    ensures { result ≡ check_link_field file.now at count }
{
    let size = file.len();
    if at == size {
        return Err(Refusal::WrongTag(size));
    }
    check_field(file, at, 2, 2, 2)?;
    if Request::MOST_LINKS <= count {
        return Err(Refusal::BadLink(at));
    }
    if file[at + 3] == file[at + 4] {
        return Err(Refusal::BadLink(at));
    }
    Ok(())
}

// The demands one by one, from an offset to the end of the file.
// Kept as it is: the slots, the links and their count go on to `test_demand`, which is public and takes them so; a struct of the three would
// be made for two functions and taken apart there, which is no plainer. For the count of demands and the offset see `read_links`.
fn read_demands(
    file: &[u8],
    start: usize,
    slots: u16,
    links: [Link; 64],
    link_count: usize,
) -> Result<DemandsFound, Refusal>
    requires { start ≤ length file.now }
    ensures { result ≡ pack_demands (read_demands 201 slots (take link_count links) file.now start []) }
{
    // Behind the last demand stands what stands in the empty request.
    let mut demands = empty_request().demands;
    let mut idents = [0u16; 200];
    let mut count = 0;
    let mut at = start;
    while at < file.len() {
        check_field(file, at, demand_tag(file, at), 5, 36)?;
        let demand = demand_in(file, at);
        check_new_demand(demand, at, slots, links, link_count, &idents[..count])?;
        demands[count] = demand;
        idents[count] = demand.ident;
        count += 1;
        at = at + 7 + demand.hops;
    }
    Ok(DemandsFound { count, demands })
}

// A demand read at an offset after demands of these idents: which of its tests is told first in a file is decided here alone: 6, 8,
// 21, 9, 7.
fn check_new_demand(
    demand: Demand,
    at: usize,
    slots: u16,
    links: [Link; 64],
    link_count: usize,
    earlier: &[u16],
) -> Result<(), Refusal>
    ensures { result ≡ check_new_demand slots (take link_count links) earlier.now at (view_demand demand) }
{
    let tests = test_demand(demand, slots, links, link_count, earlier);
    if Request::MOST_DEMANDS <= earlier.len() {
        return Err(Refusal::TooManyDemands(at));
    }
    if tests.used {
        return Err(Refusal::IdentUsed(at));
    }
    if !tests.rate {
        return Err(Refusal::UnknownRate(at));
    }
    if !tests.width {
        return Err(Refusal::BadWidth(at));
    }
    if !tests.route {
        return Err(Refusal::BadRoute(at));
    }
    Ok(())
}

fn link_in(file: &[u8], at: usize) -> Link
    requires { at + 5 ≤ length file.now }
    ensures { result ≡ link_in file.now at }
{
    Link {
        from: file[at + 3],
        to: file[at + 4],
    }
}

// The tag that a demand's field must have: 05 where it stands there, else 03.
fn demand_tag(file: &[u8], at: usize) -> u8
    requires { at < length file.now }
    ensures { result ≡ demand_tag file.now at }
{
    if file[at] == 5 { 5 } else { 3 }
}

// What the number in a demand's field asks for.
fn asked_in(tag: u8, number: u16) -> Asked
    ensures { result ≡ asked_in tag number }
{
    if tag == 5 {
        Asked::Rate(number)
    } else {
        Asked::Width(number)
    }
}

fn demand_in(file: &[u8], at: usize) -> Demand
    requires { check_field file.now at (demand_tag file.now at) 5 36 ≡ Ok tt }
    ensures { result ≡ pack_demand (demand_in file.now at) }
{
    let hops = usize::from(number_in(file, at + 1)) - 4;
    let links = route_in(file, at + 7, hops);
    Demand {
        ident: number_in(file, at + 3),
        asked: asked_in(file[at], number_in(file, at + 5)),
        hops,
        links,
    }
}

// The route of `hops` links from an offset on.
fn route_in(file: &[u8], from: usize, hops: usize) -> [u8; 32]
    requires hops_in_bounds { from + hops ≤ length file.now }
    requires hops_bound { hops ≤ 32 }
    ensures { result ≡ padded 32 0 (take hops (drop from file.now)) }
{
    let mut route = [0u8; 32];
    route[..hops].copy_from_slice(&file[from..from + hops]);
    route
}
