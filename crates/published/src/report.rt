use crate::demand::{DEMANDS, Demand};
use crate::judging::judged;
use crate::matrix::Matrix;
use crate::reading::read_matrix;
use crate::recount::recounted;
use anyhow::{Context, Result, ensure};
use std::path::Path;
use std::{env, fs};

// Reports on the matrix of each file that the arguments name, and says at the end how often both ways to a
// verdict agree.
pub(crate) fn run(rt: &HostRuntime) -> Result<()> {
    let mut agreements = Vec::new(rt.alloc());
    for path in env::args(rt)?.skip(1) {
        report_on(rt, path.as_str(), &mut agreements)?;
    }
    let verdicts = agreements.len();
    ensure!(verdicts != 0, "no file of a matrix is named");
    let agreeing = agreements.iter().filter(|agrees| **agrees).count();
    println!(rt; "{verdicts} verdicts, {agreeing} agree")?;
    Ok(())
}

// The verdicts on one matrix, for each demand, under the name that its file has.
fn report_on(rt: &HostRuntime, path: &str, agreements: &mut Vec<bool>) -> Result<()> {
    let matrix = load(rt, path).context(format_args!("reading {path}"))?;
    let name = Path::new(path).file_stem().unwrap_or(path);
    let width = matrix.width;
    let data = matrix.data_columns.len();
    let check = matrix.rows.len();
    println!(rt; "{name}: {width} columns, {data} data, {check} check")?;
    for demand in &DEMANDS {
        agreements.push(compare(rt, &matrix, demand)?)?;
    }
    println!(rt; "")?;
    Ok(())
}

fn load(rt: &HostRuntime, path: &str) -> Result<Matrix> {
    let text = fs::read_to_string(rt, path)?;
    read_matrix(rt.alloc(), text.as_str())
}

// Shows both verdicts on one demand, and answers whether they agree.
fn compare(rt: &HostRuntime, matrix: &Matrix, demand: &Demand) -> Result<bool> {
    let heap = rt.alloc();
    let ruling = judged(heap, matrix, demand)?;
    let recount = recounted(heap, matrix, demand)?;
    let agrees = ruling == recount;
    let word = if agrees { "agree" } else { "DISAGREE" };
    println!(rt; "{demand}\n  judge:   {ruling}\n  recount: {recount}\n  {word}")?;
    Ok(agrees)
}
