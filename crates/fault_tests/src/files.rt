//! What is said of files, and of cuts.

use crate::common::{says, text};
use cx_cut::CutFault;
use cx_expr::ExprFault;
use cx_text::{CclFault, TextFault};
use std::test::Fail;

#[test]
fn bytes_tokens_and_cuts(rt: HostRuntime) -> Result<(), Fail> {
    says(&rt, TextFault::BadByte(2), "BadByte 2");
    says(&rt, TextFault::OpenQuote(4), "OpenQuote 4");
    says(&rt, TextFault::TooLong, "TooLong");
    says(&rt, TextFault::Memory, "Memory");
    says(&rt, CclFault::Unexpected(1), "Unexpected 1");
    says(&rt, CclFault::Repeated(3), "Repeated 3");
    says(&rt, CclFault::BadNumber(2), "BadNumber 2");
    says(&rt, CclFault::Limit(5), "Limit 5");
    says(&rt, CclFault::Memory, "Memory");
    says(&rt, CutFault::WidthsDiffer(8, 10), "WidthsDiffer 8 10");
    says(&rt, CutFault::GridTooSmall(4, 5), "GridTooSmall 4 5");
    says(&rt, CutFault::TooMany(513, 512), "TooMany 513 512");
    says(&rt, CutFault::PartTooThin(1, 2), "PartTooThin 1 2");
    says(&rt, CutFault::Memory, "Memory");
    Ok(())
}

#[test]
fn expressions(rt: HostRuntime) -> Result<(), Fail> {
    let alloc = rt.alloc();
    let name = text(alloc, b"edge")?;
    says(&rt, ExprFault::UnknownName(name), "UnknownName edge");
    let name = text(alloc, b"pattern")?;
    says(&rt, ExprFault::NotNumber(name), "NotNumber pattern");
    let name = text(alloc, b"factor")?;
    says(&rt, ExprFault::NotText(name), "NotText factor");
    let sign = text(alloc, b"/")?;
    says(&rt, ExprFault::Range(sign), "Range /");
    Ok(())
}
