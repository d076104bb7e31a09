//! A job that is written again with a certificate.

ghost use Rattle.pcl_files.specs.World.{world, world_found, world_left};
ghost use Rattle.pcl_command.specs.Certifying.{HasCertified, HasCertifiedRead, HasCertifiedTo, IsCertified};

use pcl_base::Profile;
use pcl_cert::Format;
use pcl_files::{JobFiles, Outlet, Surroundings, settle_aside, settle_both};
use pcl_messages::Failure;
use pcl_request::{Certificate, Resolution, Run, Target, resolve};
use pcl_streams::{Fault, Watcher, read_all};
use pcl_tool::{INPUT_LIMIT, minimize_watched, write_output};
use std::io::{Read, Write};

/// Writes the job of a run again, which a reader gives, and its certificate to a file of its own, which is begun before anything is
/// read. The fault of a file that can't be begun or placed comes too.
pub fn certify<F: JobFiles, R: Read, W: Write, P: Watcher>(
    surroundings: Surroundings<'_, '_, '_, F, R, W, P>,
    certificate: Certificate<'_>,
    run: Run<'_>,
) -> Result<(), Failure>
    ensures { HasCertified F.acts certificate.entry run.entry.resolution run.entry.target
        (world_found R.remaining W.contents surroundings.entry) (world_left R.remaining W.contents surroundings.exit) result }
{
    match surroundings.files.begin_aside(certificate.file) {
        Ok(writer) => {
            let begun = BegunCertificate {
                certificate,
                writer,
            };
            certify_to(surroundings, begun, run)
        }
        Err(why) => Err(Failure::of_file(surroundings.alloc, why)),
    }
}

/// A certificate whose file was begun.
struct BegunCertificate<'a, W> {
    certificate: Certificate<'a>,
    writer: W,
}

/// Writes the job to the target of a run, and the certificate to its file. Both take their places at the end, or neither does.
fn certify_to<F: JobFiles, R: Read, W: Write, P: Watcher>(
    surroundings: Surroundings<'_, '_, '_, F, R, W, P>,
    begun: BegunCertificate<'_, F::Writer>,
    run: Run<'_>,
) -> Result<(), Failure>
    ensures { HasCertifiedTo F.acts begun.entry.certificate (F.Writer.contents begun.entry.writer) run.entry.resolution run.entry.target
        (world_found R.remaining W.contents surroundings.entry) (world_left R.remaining W.contents surroundings.exit) result }
{
    let BegunCertificate {
        certificate: Certificate { file: name, format },
        writer: mut aside,
    } = begun;
    let Surroundings {
        files,
        reader,
        out,
        alloc,
        reporter,
    } = surroundings;
    let seen = run.resolution;
    match run.target {
        Target::StandardOutput => {
            let outlet = Outlet {
                out,
                alloc,
                reporter,
            };
            let done = certify_read(reader, outlet, &mut aside, format, seen);
            let settled = settle_aside(files, name, aside, done);
            Failure::unless_done(alloc, settled, 0)
        }
        Target::File(job) => match files.begin(job) {
            Ok(mut file) => {
                let outlet = Outlet {
                    out: &mut file,
                    alloc,
                    reporter,
                };
                let done = certify_read(reader, outlet, &mut aside, format, seen);
                let settled = settle_both(files, job, file, name, aside, done);
                Failure::unless_done(alloc, settled, 0)
            }
            Err(why) => {
                files.discard(name, aside);
                Err(Failure::of_file(alloc, why))
            }
        },
    }
}

/// Writes the job that a reader gives again, and its certificate, at the resolution at which it is seen: it is read here, once.
fn certify_read<R: Read, W: Write, C: Write, P: Watcher>(
    reader: &mut R,
    outlet: Outlet<'_, W, P>,
    aside: &mut C,
    format: Format,
    resolution: Resolution,
) -> Result<(), Fault>
    ensures { HasCertifiedRead format resolution (world (tt {0}) (R.remaining reader.old) (W.contents outlet.entry.out.now))
        (world (tt {0}) (R.remaining reader.new) (W.contents outlet.exit.0.now)) (C.contents aside.old) (C.contents aside.new) result }
{
    let job = read_all(outlet.alloc, reader, INPUT_LIMIT)?;
    certify_job(outlet, aside, format, resolution, &job)
}

/// Writes a job again, and its certificate, at the resolution at which it is seen. Nothing is written before both are there.
fn certify_job<W: Write, C: Write, P: Watcher>(
    outlet: Outlet<'_, W, P>,
    aside: &mut C,
    format: Format,
    resolution: Resolution,
    job: &[u8],
) -> Result<(), Fault>
    ensures { IsCertified format resolution job.now (W.contents outlet.entry.out.now) (W.contents outlet.exit.0.now)
        (C.contents aside.old) (C.contents aside.new) result }
{
    let dpi = resolve(outlet.alloc, resolution, Profile::Stated, job)?;
    let output = minimize_watched(outlet.alloc, job, dpi, format, outlet.reporter)?;
    write_output(&output, INPUT_LIMIT, outlet.out, aside)
}
