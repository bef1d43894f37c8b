// A script stored in plain memory and in flash, through gathering layers.
use anyhow::anyhow;
use flash::Words;
use sink::plain::Bytes;
use store::report::Report;
use store::store_in;

// How many bytes each memory has: enough for the longest script, 4,096 words.
const MEMORY: usize = 16_400;

// Tells what became of the words in a memory.
fn tell(rt: &HostRuntime, memory: &str, report: Report) -> anyhow::Result<()> {
    let Report {
        answer,
        waited,
        waits,
        bytes,
        room,
    } = report;
    match answer {
        Ok(()) => println!(rt;
            "{memory}: {bytes} bytes, room {room}, {waited} held back before settle, {waits} after"
        )?,
        Err(refusal) => {
            let number = u8::from(refusal);
            println!(rt; "{memory}: refused {number} ({refusal})")?
        }
    }
    Ok(())
}

// Stores the words in both memories, and says whether they hold the same.
pub(crate) fn print(rt: &HostRuntime, words: &[u32]) -> anyhow::Result<()> {
    println!(rt; "storing the words through two gathering layers")?;
    let mut plain = vec![in rt.alloc(); 0u8; MEMORY]?;
    let mut flash = vec![in rt.alloc(); 0u32; MEMORY / 4]?;
    tell(rt, "plain memory", store_in::<Bytes>(&mut plain, words))?;
    tell(rt, "flash", store_in::<Words>(&mut flash, words))?;
    let mut bytes = Vec::new(rt.alloc());
    for word in flash.iter() {
        bytes.extend_from_slice(&word.to_be_bytes())?;
    }
    if bytes == plain {
        println!(rt; "plain memory and flash hold the same")?;
        Ok(())
    } else {
        Err(anyhow!("plain memory and flash differ"))
    }
}
