// A plain service to compare with: lists, the bytes of each job, and a search at every place. It shares no code with the
// service, and says what it does as scripts print it.
use std::alloc::{AllocError, Global};

// The limits of both services.
pub const JOBS: usize = 3;

pub const CACHE: usize = 2;

pub const CHUNK: u64 = 2;

// The patterns of the set of a version.
pub fn patterns_of(version: u64) -> &'static [&'static [u8]] {
    match version % 4 {
        0 => &[b"ABC"],
        1 => &[b"DD", b"BCA"],
        2 => &[b"CABD", b"DC", b"C"],
        _ => &[],
    }
}

// A pattern's index, and how many bytes there are up to its end; or none in what is clean.
type Hit = Option<(usize, usize)>;

#[derive(Clone, Copy)]
pub struct Id {
    pub boot: u64,
    pub seq: u64,
}

#[derive(Clone, Copy)]
pub struct Content {
    pub stream: u64,
    pub generation: u64,
    pub length: u64,
}

#[derive(Drop)]
pub struct PlainJob {
    pub id: Id,
    pub content: Content,
    pub judged: Vec<u8>,
    // What is lent, under this lease; 0 where nothing is.
    pub lent: Vec<u8>,
    pub lease: u64,
}

#[derive(Clone, Copy)]
struct Kept {
    stream: u64,
    generation: u64,
    version: u64,
    hit: Hit,
}

#[derive(Drop)]
pub struct Plain {
    pub version: u64,
    pub connected: bool,
    pub jobs: Vec<PlainJob>,
    last_lease: u64,
    // The most recent first.
    cache: Vec<Kept>,
}

impl Plain {
    pub fn new(alloc: Global) -> Plain {
        Plain {
            version: 0,
            connected: false,
            jobs: Vec::new(alloc),
            last_lease: 0,
            cache: Vec::new(alloc),
        }
    }

    pub fn connect(&mut self, alloc: Global) -> Result<String, AllocError> {
        if self.version == 0 {
            return format!(in alloc; "refused NoSignatures");
        }
        if self.connected {
            return format!(in alloc; "refused AlreadyConnected");
        }
        self.connected = true;
        format!(in alloc; "hello volume 1 version {}", self.version)
    }

    pub fn leave(&mut self) {
        self.connected = false;
        self.jobs.clear();
    }

    pub fn restart(&mut self, latest: u64) {
        self.leave();
        self.cache.clear();
        self.version = latest;
    }

    pub fn publish(&mut self, alloc: Global, version: u64) -> Result<String, AllocError> {
        self.version = version;
        let mut said = String::new(alloc);
        if self.connected {
            said.push_str(format!(in alloc; "updated {version}")?.as_str())?;
        }
        for job in &mut self.jobs {
            job.judged.clear();
            job.lent.clear();
            job.lease = 0;
            said.push_str(", ")?;
            said.push_str(read_line(alloc, job)?.as_str())?;
        }
        Ok(said)
    }

    pub fn scan(&mut self, alloc: Global, id: Id, content: Content) -> Result<String, AllocError> {
        if !self.connected {
            return format!(in alloc; "note Ignored");
        }
        if self.place_of(id).is_some() {
            return format!(in alloc; "note Repeat");
        }
        let place = self.kept_at(content);
        if place < self.cache.len() {
            let kept = self.cache.remove(place);
            self.cache.insert(0, kept)?;
            return self.reply(alloc, id, kept.hit);
        }
        if self.jobs.len() >= JOBS {
            return format!(in alloc; "reply {}.{} failed 1", id.boot, id.seq);
        }
        if content.length == 0 {
            self.keep(content, None)?;
            return self.reply(alloc, id, None);
        }
        let job = PlainJob {
            id,
            content,
            judged: Vec::new(alloc),
            lent: Vec::new(alloc),
            lease: 0,
        };
        let said = read_line(alloc, &job)?;
        self.jobs.push(job)?;
        Ok(said)
    }

    pub fn chunk(
        &mut self,
        alloc: Global,
        id: Id,
        offset: u64,
        bytes: &[u8],
    ) -> Result<String, AllocError> {
        let Some(place) = self.place_of(id) else {
            return format!(in alloc; "note Ignored");
        };
        let Some(job) = self.jobs.get_mut(place) else {
            return format!(in alloc; "note Ignored");
        };
        let judged = job.judged.len() as u64;
        if job.lease != 0 || judged != offset {
            return format!(in alloc; "note Ignored");
        }
        if judged.saturating_add(bytes.len() as u64) > job.content.length {
            self.drop_at(place);
            return format!(in alloc; "reply {}.{} failed 2", id.boot, id.seq);
        }
        self.last_lease = self.last_lease.saturating_add(1);
        job.lease = self.last_lease;
        for byte in bytes {
            job.lent.push(*byte)?;
        }
        format!(in alloc;
            "lease {} {}.{} version {}",
            self.last_lease, id.boot, id.seq, self.version
        )
    }

    // A NoChunk or an Abort.
    pub fn end(&mut self, alloc: Global, id: Id) -> Result<String, AllocError> {
        match self.place_of(id) {
            Some(place) => {
                self.drop_at(place);
                Ok(String::new(alloc))
            }
            None => format!(in alloc; "note Ignored"),
        }
    }

    pub fn finish(&mut self, alloc: Global, lease: u64) -> Result<String, AllocError> {
        let Some(place) = self.jobs.iter().position(|job| job.lease == lease) else {
            return format!(in alloc; "note Orphan");
        };
        let Some(job) = self.jobs.get_mut(place) else {
            return format!(in alloc; "note Orphan");
        };
        job.judged.append(&mut job.lent)?;
        job.lease = 0;
        let (id, content) = (job.id, job.content);
        let hit = first_hit(patterns_of(self.version), job.judged.as_slice());
        if hit.is_none() && (job.judged.len() as u64) < content.length {
            return read_line(alloc, job);
        }
        self.drop_at(place);
        self.keep(content, hit)?;
        self.reply(alloc, id, hit)
    }

    // What the readers answer.
    pub fn readers(&self, alloc: Global) -> Result<String, AllocError> {
        let (version, connected, jobs) = (self.version, self.connected, self.jobs.len());
        let mut text = format!(in alloc;
            "volume 1 port 1 version {version} connected {connected} jobs {jobs}"
        )?;
        for kept in &self.cache {
            let verdict = hit_text(alloc, kept.hit)?;
            let (stream, generation, version) = (kept.stream, kept.generation, kept.version);
            text.push_str(format!(in alloc;
                ", {stream} {generation} {version} {verdict}"
            )?.as_str())?;
        }
        Ok(text)
    }

    fn place_of(&self, id: Id) -> Option<usize> {
        self.jobs
            .iter()
            .position(|job| job.id.boot == id.boot && job.id.seq == id.seq)
    }

    // Where the cache has a content, or a place behind it.
    fn kept_at(&self, content: Content) -> usize {
        let place = self.cache.iter().position(|kept| {
            kept.stream == content.stream
                && kept.generation == content.generation
                && kept.version == self.version
        });
        place.unwrap_or(self.cache.len())
    }

    fn drop_at(&mut self, place: usize) {
        if place < self.jobs.len() {
            self.jobs.remove(place);
        }
    }

    fn keep(&mut self, content: Content, hit: Hit) -> Result<(), AllocError> {
        let place = self.kept_at(content);
        if place < self.cache.len() {
            self.cache.remove(place);
        }
        let kept = Kept {
            stream: content.stream,
            generation: content.generation,
            version: self.version,
            hit,
        };
        self.cache.insert(0, kept)?;
        self.cache.truncate(CACHE);
        Ok(())
    }

    fn reply(&self, alloc: Global, id: Id, hit: Hit) -> Result<String, AllocError> {
        let verdict = hit_text(alloc, hit)?;
        format!(in alloc;
            "reply {}.{} version {} {verdict}",
            id.boot, id.seq, self.version
        )
    }
}

fn read_line(alloc: Global, job: &PlainJob) -> Result<String, AllocError> {
    let offset = job.judged.len() as u64;
    let count = job.content.length.saturating_sub(offset).min(CHUNK);
    format!(in alloc;
        "read {}.{} offset {offset} count {count}",
        job.id.boot, job.id.seq
    )
}

fn hit_text(alloc: Global, hit: Hit) -> Result<String, AllocError> {
    match hit {
        None => format!(in alloc; "clean"),
        Some((index, end)) => format!(in alloc; "infected {index} end {end}"),
    }
}

// The first place at which a pattern ends, and the first pattern that ends there.
fn first_hit(patterns: &[&[u8]], bytes: &[u8]) -> Hit {
    for end in 0..bytes.len() {
        for (index, pattern) in patterns.iter().enumerate() {
            if bytes[..end + 1].ends_with(*pattern) {
                return Some((index, end + 1));
            }
        }
    }
    None
}
