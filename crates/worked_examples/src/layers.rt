// Well-known text and layers. Each row is a text and what it gives, with `=` between them.
ghost use Rattle.std.specs.Prelude.{IfSome};
ghost use Rattle.wkt_text.specs.Geometry.{IsWritable};

use ogr_csv::{Feature, LayerFault, LayerReader, RowText, RowsText};
use std::alloc::Global;
use std::test::Fail;
use wkt_text::{WktFault, read_geometry, write_geometry};

const GEOMETRIES: &str = " point( +1.50  2e0 ) =POINT (1.5 2)
multipoint(1 2,(3 4))=MULTIPOINT ((1 2),(3 4))
Polygon empty=POLYGON EMPTY
\u{b}LineString\t( -0.5 .25 )=LINESTRING (-0.5 0.25)
polygon((0 0,9 0,9 9,0.0 -0),(1 1,2 1,2 2,1e0 1))=POLYGON ((0 0,9 0,9 9,0 0),(1 1,2 1,2 2,1 1))
MULTILINESTRING((1 2),(3 4,5 6))=MULTILINESTRING ((1 2),(3 4,5 6))
multipolygon(((0 0,9 0,9 9,0 0)),((1 1,2 1,2 2,1 1)))=MULTIPOLYGON (((0 0,9 0,9 9,0 0)),((1 1,2 1,2 2,1 1)))
MultiPolygon EMPTY =MULTIPOLYGON EMPTY";

const REFUSALS: &str = "=UnknownKind 1
  \t=UnknownKind 4
CIRCLE (1 2)=UnknownKind 1
POINT Z (1 2 3)=Dimension 7
POINT (1 2 3)=Dimension 12
POINT (1 x)=BadNumber 10
POINT (1 50000000)=OutOfRange 10
POINT (1 2=Syntax 11
POINT EMPTY ()=Syntax 13
POLYGON ((0 0,1 0,0 0))=ShortRing 22
POLYGON ((0 0,1 0,1 1,0 1))=OpenRing 26
POINT (1 2 x)=Syntax 12
POINT (1 2 1e99)=Dimension 12
MULTIPOINT (EMPTY)=BadNumber 13
LINESTRING (1 2,)=Syntax 17
POINT (1 2) 3=Syntax 13
POLYGON ((0 0,1 0,0 0),(x=ShortRing 22";

/// The canonical spelling of the geometry of a text, or the offence and its byte.
fn answer_to(alloc: Global, text: &str) -> Result<String, Fail> {
    match read_geometry(alloc, text.as_bytes()) {
        Ok(geometry) => {
            let mut out = Vec::new(alloc);
            write_geometry(&geometry, &mut out)?;
            Ok(String::from_utf8(out)?)
        }
        Err(WktFault::At { kind, byte }) => Ok(format!(in alloc; "{kind:?} {byte}")?),
        Err(WktFault::NoMemory) => Err(Fail::from("out of memory")),
    }
}

#[test]
fn reads_geometries(rt: HostRuntime) -> Result<(), Fail> {
    for row in GEOMETRIES.lines() {
        let (text, want) = row.split_once('=').ok_or("a row")?;
        assert!(rt; answer_to(rt.alloc(), text)?.as_str() == want, "{text}");
    }
    Ok(())
}

#[test]
fn refuses_texts(rt: HostRuntime) -> Result<(), Fail> {
    for row in REFUSALS.lines() {
        let (text, want) = row.split_once('=').ok_or("a row")?;
        assert!(rt; answer_to(rt.alloc(), text)?.as_str() == want, "{text}");
    }
    Ok(())
}

/// What a feature gives: its geometry's canonical spelling, a space, a bar and its value.
fn spelled(alloc: Global, feature: &Feature) -> Result<String, Fail>
    requires { IfSome feature.now.geometry IsWritable }
{
    let mut out = Vec::new(alloc);
    if let Some(geometry) = &feature.geometry {
        write_geometry(geometry, &mut out)?;
    }
    let geometry = String::from_utf8(out)?;
    let value = feature.value;
    Ok(format!(in alloc; "{geometry} |{value:?}")?)
}

/// What the next call of a reader answers.
fn next_of(alloc: Global, reader: &mut LayerReader<'_>) -> Result<String, Fail> {
    match reader.next(alloc) {
        Ok(Some(feature)) => spelled(alloc, &feature),
        Ok(None) => Ok(String::from_str(alloc, "end")?),
        Err(fault) => Ok(format!(in alloc; "{fault:?}")?),
    }
}

/// What a layer text answers, call by call, with bars between the answers.
fn layer(alloc: Global, text: &str, field: Option<&str>, calls: u32) -> Result<String, Fail> {
    let mut answers = String::new(alloc);
    match LayerReader::open(alloc, text.as_bytes(), field) {
        Ok(mut reader) => {
            for _ in 0..calls {
                answers.push_str(next_of(alloc, &mut reader)?.as_str())?;
                answers.push_str(";")?;
            }
        }
        Err(fault) => answers.push_str(format!(in alloc; "{fault:?}")?.as_str())?,
    }
    Ok(answers)
}

#[test]
fn reads_a_named_field(rt: HostRuntime) -> Result<(), Fail> {
    let text = "wkt,a,A\nPOINT (1 2), 2.5 ,9\n,x,1\n";
    assert_eq!(rt;
        layer(rt.alloc(), text, Some("A"), 4)?.as_str(),
        "POINT (1 2) |Some(3);BadAttribute { at: 2 };BadAttribute { at: 2 };BadAttribute { at: 2 };"
    );
    assert_eq!(rt;
        layer(rt.alloc(), text, None, 3)?.as_str(),
        "POINT (1 2) |None; |None;end;"
    );
    assert_eq!(rt; layer(rt.alloc(), text, Some("b"), 1)?.as_str(), "NoField");
    Ok(())
}

#[test]
fn refuses_an_open_ring(rt: HostRuntime) -> Result<(), Fail> {
    let text =
        "WKT,DN\n\"POLYGON ((0 0,1 0,1 1,0 1,0 0))\",1\n,7\n\"POLYGON ((0 0,1 0,1 1,0 1))\",2\n";
    assert_eq!(rt;
        layer(rt.alloc(), text, Some("DN"), 4)?.as_str(),
        "POLYGON ((0 0,1 0,1 1,0 1,0 0)) |Some(1); |Some(7);\
BadGeometry { at: 3, kind: OpenRing, byte: 26 };BadGeometry { at: 3, kind: OpenRing, byte: 26 };"
    );
    assert_eq!(rt;
        layer(rt.alloc(), text, Some("height"), 1)?.as_str(),
        "NoField"
    );
    Ok(())
}

#[test]
fn reads_what_other_programs_write(rt: HostRuntime) -> Result<(), Fail> {
    let marked =
        "\u{feff}id,the_geom,Wkt\r\n\r\n 9e30 ,x,\"LINESTRING (0 0,\r\n1 1)\"\r\n-1e99,y, \r\n\"\"";
    assert_eq!(rt;
        layer(rt.alloc(), marked, Some("ID"), 4)?.as_str(),
        "LINESTRING (0 0,1 1) |Some(9223372036854775807); |Some(-9223372036854775808); |None;end;"
    );
    assert_eq!(rt; layer(rt.alloc(), "", None, 1)?.as_str(), "NoHeader");
    assert_eq!(rt; layer(rt.alloc(), "\n\r\n", None, 1)?.as_str(), "NoHeader");
    assert_eq!(rt;
        layer(rt.alloc(), "a,b", Some("c"), 1)?.as_str(),
        "NoGeometryColumn"
    );
    assert_eq!(rt;
        layer(rt.alloc(), "\u{feff}\u{feff}WKT\n", None, 1)?.as_str(),
        "NoGeometryColumn"
    );
    assert_eq!(rt;
        layer(rt.alloc(), "WKT,WKT\nPOINT (1 2),x\n", None, 2)?.as_str(),
        "POINT (1 2) |None;end;"
    );
    Ok(())
}

#[test]
fn writes_rows(rt: HostRuntime) -> Result<(), Fail> {
    let mut row = RowText::new(rt.alloc())?;
    let mut text = Vec::new(rt.alloc());
    let mut rows = RowsText::new(rt.alloc());
    let lines: [[&[u8]; 2]; 3] = [
        [b"WKT", b"a \"b\""],
        [b"POLYGON ((0 0,1 0,1 1,0 0))", b"-5"],
        [b"", b"7"],
    ];
    for fields in &lines {
        row.add(fields[0])?;
        row.add(fields[1])?;
        row.finish(&mut text)?;
        rows.add(fields)?;
    }
    let want = "WKT,\"a \"\"b\"\"\"\n\"POLYGON ((0 0,1 0,1 1,0 0))\",-5\n,7\n";
    assert!(rt; text.as_slice() == want.as_bytes());
    assert!(rt; !rows.is_long());
    rows.add(&[b"alone"])?;
    let many = rows.into_text()?;
    assert!(rt; many.as_slice() == format!(in rt.alloc(); "{want}alone\n")?.as_bytes());
    Ok(())
}

#[test]
fn a_text_of_rows_gets_long(rt: HostRuntime) -> Result<(), Fail> {
    let field = vec![in rt.alloc(); 65u8; 999]?;
    let mut rows = RowsText::new(rt.alloc());
    let mut count = 0u32;
    for _ in 0..2_000u32 {
        if rows.is_long() {
            break;
        }
        rows.add(&[field.as_slice()])?;
        count = count.wrapping_add(1);
    }
    let text = rows.into_text()?;
    assert!(rt; text.len() == count as usize * 1_000);
    assert!(rt; 1_048 < count && count < 1_060);
    Ok(())
}
