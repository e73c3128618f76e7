//! Whole commands whose files are too long for a line of `cases`.

use crate::worked::check;
use std::alloc::Global;
use std::process::Abort;
use std::test::Fail;

/// Two servers, and a flow that passes both.
const NET: &str = "\
[[server]]\nname = \"s1\"\nrate = 100\nservice = { kind = \"latency\", latency = 10 }\n\
[[server]]\nname = \"s2\"\nrate = 100\nservice = { kind = \"latency\", latency = 10 }\n\
[[flow]]\nname = \"f1\"\npacket = 12000\narrival = { kind = \"bucket\", burst = 12000, rate = 10 }\npath = [\"s1\", \"s2\"]\n";

/// A text so many times.
fn times(alloc: Global, text: &str, count: usize) -> Result<String, Fail> {
    Ok(text.repeat(alloc, count)?)
}

/// That the words, where `n.toml` and `r.csv` hold these texts, give this status and these bytes.
fn check_on(
    rt: &impl Abort,
    alloc: Global,
    words: &str,
    net: &str,
    rows: &str,
    status: u8,
    wanted: &str,
) -> Result<(), Fail> {
    let call = format!(in alloc; "{words}, {}|23456789|1|netcalc {words}", rows.len())?;
    let files = format!(in alloc; "n.toml|{net}|r.csv|{rows}")?;
    let case = format!(in alloc; "{call}|{status}|{wanted}|{files}")?;
    check(rt, alloc, case.as_str())
}

#[test]
fn a_file_has_at_most_1048576_bytes(rt: HostRuntime) -> Result<(), Fail> {
    let alloc = rt.alloc();
    let words = "analyse n.toml";
    let most = times(alloc, "#", 1_048_576)?;
    let more = times(alloc, "#", 1_048_577)?;
    check_on(
        &rt,
        alloc,
        words,
        most.as_str(),
        "",
        0,
        "servers 0 flows 0\n",
    )?;
    check_on(
        &rt,
        alloc,
        words,
        more.as_str(),
        "",
        1,
        "netcalc: n.toml: too long\n",
    )
}

#[test]
fn five_hundred_rates_are_set_and_taken_back(rt: HostRuntime) -> Result<(), Fail> {
    let alloc = rt.alloc();
    let mut rows = String::new(alloc);
    let mut told = String::new(alloc);
    for number in 1u32..1001 {
        let rate = format!(in alloc; "rate,s1,{}\n", number.saturating_add(100))?;
        rows.push_str(if number <= 500 {
            rate.as_str()
        } else {
            "undo\n"
        })?;
        let cells = if number <= 500 { 18 } else { 0 };
        let line = format!(in alloc; "edit {number} ok cells {cells}\n")?;
        told.push_str(line.as_str())?;
    }
    told.push_str("servers 2 flows 1\nqueue s1 0 delay 130 backlog 13300\n")?;
    told.push_str("queue s2 0 delay 143 backlog 14600\nflow f1 tfa 273 sfa 260 bound 260\n")?;
    check_on(
        &rt,
        alloc,
        "edit n.toml r.csv",
        NET,
        rows.as_str(),
        0,
        told.as_str(),
    )
}

#[test]
fn a_measured_flow_has_at_most_1024_packets(rt: HostRuntime) -> Result<(), Fail> {
    let alloc = rt.alloc();
    let words = "measure n.toml r.csv f1 1";
    let most = times(alloc, "packet,0,f1,1\n", 1024)?;
    let more = times(alloc, "packet,0,f1,1\n", 1025)?;
    let told = "flow f1 packets 1024\nstep 0 1024\nburst 1024 rate 1\n";
    check_on(&rt, alloc, words, NET, most.as_str(), 0, told)?;
    check_on(
        &rt,
        alloc,
        words,
        NET,
        more.as_str(),
        7,
        "netcalc: too many: measure\n",
    )
}
