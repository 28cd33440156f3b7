//! The names that C, C++ and libtirpc have already: each text has those of one kind, with a blank
//! between two. `reference/c_names` writes this file.
//!
//! Of gcc 12, glibc 2.36, libtirpc 1.3.2.

/// How many names there are, those with a number too.
pub(crate) const NAME_COUNT: usize = 2406;

/// Keywords: C11, section 6.4.1, and `asm` and `typeof` of GNU C.
pub(crate) const KEYWORDS: &str = "\
    asm auto break case char const continue default do double else enum extern float for goto if \
    inline int long register restrict return short signed sizeof static struct switch typedef \
    typeof union unsigned void volatile while";

/// Keywords and alternative tokens of C++17 (N4659, sections 5.11 and 5.5) that C lacks.
pub(crate) const KEYWORDS_OF_CPP: &str = "\
    alignas alignof and and_eq bitand bitor bool catch char16_t char32_t class compl const_cast \
    constexpr decltype delete dynamic_cast explicit export false friend mutable namespace new \
    noexcept not not_eq nullptr operator or or_eq private protected public reinterpret_cast \
    static_assert static_cast template this thread_local throw true try typeid typename using \
    virtual wchar_t xor xor_eq";

/// Macros without parameters, of the compiler and of the headers.
pub(crate) const MACROS: &str = "\
    AF_ALG AF_APPLETALK AF_ASH AF_ATMPVC AF_ATMSVC AF_AX25 AF_BLUETOOTH AF_BRIDGE AF_CAIF AF_CAN \
    AF_DECnet AF_ECONET AF_FILE AF_IB AF_IEEE802154 AF_INET AF_INET6 AF_IPX AF_IRDA AF_ISDN \
    AF_IUCV AF_KCM AF_KEY AF_LLC AF_LOCAL AF_MAX AF_MCTP AF_MPLS AF_NETBEUI AF_NETLINK AF_NETROM \
    AF_NFC AF_PACKET AF_PHONET AF_PPPOX AF_QIPCRTR AF_RDS AF_ROSE AF_ROUTE AF_RXRPC AF_SECURITY \
    AF_SMC AF_SNA AF_TIPC AF_UNIX AF_UNSPEC AF_VSOCK AF_WANPIPE AF_X25 AF_XDP AIO_PRIO_DELTA_MAX \
    AUTH_DES AUTH_DH AUTH_F_RPCTIMESYNC AUTH_F_TRYNONE AUTH_KERB AUTH_NONE AUTH_NULL AUTH_SHORT \
    AUTH_SYS AUTH_UNIX BC_BASE_MAX BC_DIM_MAX BC_SCALE_MAX BC_STRING_MAX BIG_ENDIAN BUFSIZ \
    BUS_ADRALN BUS_ADRERR BUS_MCEERR_AO BUS_MCEERR_AR BUS_OBJERR BYTES_PER_XDR_UNIT BYTE_ORDER \
    CANBSIZ CHARCLASS_NAME_MAX CHAR_BIT CHAR_MAX CHAR_MIN CLCR_GET_LOWVERS CLCR_SET_LOWVERS \
    CLD_CONTINUED CLD_DUMPED CLD_EXITED CLD_KILLED CLD_STOPPED CLD_TRAPPED CLGET_FD CLGET_PROG \
    CLGET_RETRY_TIMEOUT CLGET_SERVER_ADDR CLGET_SVC_ADDR CLGET_TIMEOUT CLGET_VERS CLGET_XID \
    CLSET_ASYNC CLSET_CONNECT CLSET_FD_CLOSE CLSET_FD_NCLOSE CLSET_POP_TIMOD CLSET_PROG \
    CLSET_PUSH_TIMOD CLSET_RETRY_TIMEOUT CLSET_SVC_ADDR CLSET_TIMEOUT CLSET_VERS CLSET_XID \
    COLL_WEIGHTS_MAX DELAYTIMER_MAX DEV_BSIZE EOF EXEC_PAGESIZE EXIT_FAILURE EXIT_SUCCESS \
    EXPR_NEST_MAX FALSE FD_SETSIZE FEEDBACK_OK FEEDBACK_REXMIT1 FILENAME_MAX FIOGETOWN FIOSETOWN \
    FOPEN_MAX FPE_CONDTRAP FPE_FLTDIV FPE_FLTINV FPE_FLTOVF FPE_FLTRES FPE_FLTSUB FPE_FLTUND \
    FPE_FLTUNK FPE_INTDIV FPE_INTOVF FP_XSTATE_MAGIC1 FP_XSTATE_MAGIC2 FP_XSTATE_MAGIC2_SIZE \
    HOST_NAME_MAX HZ ILL_BADIADDR ILL_BADSTK ILL_COPROC ILL_ILLADR ILL_ILLOPC ILL_ILLOPN \
    ILL_ILLTRP ILL_PRVOPC ILL_PRVREG IN6ADDR_ANY_INIT IN6ADDR_LOOPBACK_INIT INADDR_ALLHOSTS_GROUP \
    INADDR_ALLRTRS_GROUP INADDR_ALLSNOOPERS_GROUP INADDR_ANY INADDR_BROADCAST INADDR_DUMMY \
    INADDR_LOOPBACK INADDR_MAX_LOCAL_GROUP INADDR_NONE INADDR_UNSPEC_GROUP INET6_ADDRSTRLEN \
    INET_ADDRSTRLEN INT_MAX INT_MIN IN_CLASSA_HOST IN_CLASSA_MAX IN_CLASSA_NET IN_CLASSA_NSHIFT \
    IN_CLASSB_HOST IN_CLASSB_MAX IN_CLASSB_NET IN_CLASSB_NSHIFT IN_CLASSC_HOST IN_CLASSC_NET \
    IN_CLASSC_NSHIFT IN_LOOPBACKNET IPPROTO_AH IPPROTO_BEETPH IPPROTO_COMP IPPROTO_DCCP \
    IPPROTO_DSTOPTS IPPROTO_EGP IPPROTO_ENCAP IPPROTO_ESP IPPROTO_ETHERNET IPPROTO_FRAGMENT \
    IPPROTO_GRE IPPROTO_HOPOPTS IPPROTO_ICMP IPPROTO_ICMPV6 IPPROTO_IDP IPPROTO_IGMP IPPROTO_IP \
    IPPROTO_IPIP IPPROTO_IPV6 IPPROTO_MH IPPROTO_MPLS IPPROTO_MPTCP IPPROTO_MTP IPPROTO_NONE \
    IPPROTO_PIM IPPROTO_PUP IPPROTO_RAW IPPROTO_ROUTING IPPROTO_RSVP IPPROTO_SCTP IPPROTO_TCP \
    IPPROTO_TP IPPROTO_UDP IPPROTO_UDPLITE IPV6_2292DSTOPTS IPV6_2292HOPLIMIT IPV6_2292HOPOPTS \
    IPV6_2292PKTINFO IPV6_2292PKTOPTIONS IPV6_2292RTHDR IPV6_ADDRFORM IPV6_ADDR_PREFERENCES \
    IPV6_ADD_MEMBERSHIP IPV6_AUTHHDR IPV6_AUTOFLOWLABEL IPV6_CHECKSUM IPV6_DONTFRAG \
    IPV6_DROP_MEMBERSHIP IPV6_DSTOPTS IPV6_FREEBIND IPV6_HDRINCL IPV6_HOPLIMIT IPV6_HOPOPTS \
    IPV6_IPSEC_POLICY IPV6_JOIN_ANYCAST IPV6_JOIN_GROUP IPV6_LEAVE_ANYCAST IPV6_LEAVE_GROUP \
    IPV6_MINHOPCOUNT IPV6_MTU IPV6_MTU_DISCOVER IPV6_MULTICAST_ALL IPV6_MULTICAST_HOPS \
    IPV6_MULTICAST_IF IPV6_MULTICAST_LOOP IPV6_NEXTHOP IPV6_ORIGDSTADDR IPV6_PATHMTU IPV6_PKTINFO \
    IPV6_PMTUDISC_DO IPV6_PMTUDISC_DONT IPV6_PMTUDISC_INTERFACE IPV6_PMTUDISC_OMIT \
    IPV6_PMTUDISC_PROBE IPV6_PMTUDISC_WANT IPV6_RECVDSTOPTS IPV6_RECVERR IPV6_RECVERR_RFC4884 \
    IPV6_RECVFRAGSIZE IPV6_RECVHOPLIMIT IPV6_RECVHOPOPTS IPV6_RECVORIGDSTADDR IPV6_RECVPATHMTU \
    IPV6_RECVPKTINFO IPV6_RECVRTHDR IPV6_RECVTCLASS IPV6_ROUTER_ALERT IPV6_ROUTER_ALERT_ISOLATE \
    IPV6_RTHDR IPV6_RTHDRDSTOPTS IPV6_RTHDR_LOOSE IPV6_RTHDR_STRICT IPV6_RTHDR_TYPE_0 \
    IPV6_RXDSTOPTS IPV6_RXHOPOPTS IPV6_TCLASS IPV6_TRANSPARENT IPV6_UNICAST_HOPS IPV6_UNICAST_IF \
    IPV6_V6ONLY IPV6_XFRM_POLICY IP_ADD_MEMBERSHIP IP_ADD_SOURCE_MEMBERSHIP \
    IP_BIND_ADDRESS_NO_PORT IP_BLOCK_SOURCE IP_CHECKSUM IP_DEFAULT_MULTICAST_LOOP \
    IP_DEFAULT_MULTICAST_TTL IP_DROP_MEMBERSHIP IP_DROP_SOURCE_MEMBERSHIP IP_FREEBIND IP_HDRINCL \
    IP_IPSEC_POLICY IP_MAX_MEMBERSHIPS IP_MINTTL IP_MSFILTER IP_MTU IP_MTU_DISCOVER \
    IP_MULTICAST_ALL IP_MULTICAST_IF IP_MULTICAST_LOOP IP_MULTICAST_TTL IP_NODEFRAG IP_OPTIONS \
    IP_ORIGDSTADDR IP_PASSSEC IP_PKTINFO IP_PKTOPTIONS IP_PMTUDISC IP_PMTUDISC_DO IP_PMTUDISC_DONT \
    IP_PMTUDISC_INTERFACE IP_PMTUDISC_OMIT IP_PMTUDISC_PROBE IP_PMTUDISC_WANT IP_RECVERR \
    IP_RECVERR_RFC4884 IP_RECVFRAGSIZE IP_RECVOPTS IP_RECVORIGDSTADDR IP_RECVRETOPTS IP_RECVTOS \
    IP_RECVTTL IP_RETOPTS IP_ROUTER_ALERT IP_TOS IP_TRANSPARENT IP_TTL IP_UNBLOCK_SOURCE \
    IP_UNICAST_IF IP_XFRM_POLICY ITIMER_PROF ITIMER_REAL ITIMER_VIRTUAL LINE_MAX LITTLE_ENDIAN \
    LLONG_MAX LLONG_MIN LOGIN_NAME_MAX LONG_MAX LONG_MIN L_ctermid L_tmpnam MAXHOSTNAMELEN \
    MAXNETNAMELEN MAXPATHLEN MAXSYMLINKS MAX_AUTH_BYTES MAX_CANON MAX_INPUT MAX_MACHINE_NAME \
    MAX_NETOBJ_SZ MB_CUR_MAX MB_LEN_MAX MCAST_BLOCK_SOURCE MCAST_EXCLUDE MCAST_INCLUDE \
    MCAST_JOIN_GROUP MCAST_JOIN_SOURCE_GROUP MCAST_LEAVE_GROUP MCAST_LEAVE_SOURCE_GROUP \
    MCAST_MSFILTER MCAST_UNBLOCK_SOURCE MINSIGSTKSZ MQ_PRIO_MAX MSG_BATCH MSG_CMSG_CLOEXEC \
    MSG_CONFIRM MSG_CTRUNC MSG_DONTROUTE MSG_DONTWAIT MSG_EOR MSG_ERRQUEUE MSG_FASTOPEN MSG_FIN \
    MSG_MORE MSG_NOSIGNAL MSG_OOB MSG_PEEK MSG_PROXY MSG_RST MSG_SYN MSG_TRUNC MSG_WAITALL \
    MSG_WAITFORONE MSG_ZEROCOPY NAME_MAX NBBY NCARGS NC_APPLETALK NC_BROADCAST NC_CCITT NC_CHAOS \
    NC_DATAKIT NC_DECNET NC_DLI NC_ECMA NC_GOSIP NC_HYLINK NC_ICMP NC_IEEE802 NC_IMPLINK NC_INET \
    NC_INET6 NC_LAT NC_LOOPBACK NC_NBS NC_NIT NC_NOFLAG NC_NOPROTO NC_NOPROTOFMLY NC_NS NC_OSI \
    NC_OSINET NC_PUP NC_SNA NC_TCP NC_TPI_CLTS NC_TPI_COTS NC_TPI_COTS_ORD NC_TPI_RAW NC_UDP \
    NC_VISIBLE NC_X25 NETCONFIG NETPATH NFDBITS NGREG NGROUPS NGROUPS_MAX NGRPS NODEV NOFILE \
    NOGROUP NSIG NULL NULLPROC NULL_xdrproc_t PATH_MAX PDP_ENDIAN PF_ALG PF_APPLETALK PF_ASH \
    PF_ATMPVC PF_ATMSVC PF_AX25 PF_BLUETOOTH PF_BRIDGE PF_CAIF PF_CAN PF_DECnet PF_ECONET PF_FILE \
    PF_IB PF_IEEE802154 PF_INET PF_INET6 PF_IPX PF_IRDA PF_ISDN PF_IUCV PF_KCM PF_KEY PF_LLC \
    PF_LOCAL PF_MAX PF_MCTP PF_MPLS PF_NETBEUI PF_NETLINK PF_NETROM PF_NFC PF_PACKET PF_PHONET \
    PF_PPPOX PF_QIPCRTR PF_RDS PF_ROSE PF_ROUTE PF_RXRPC PF_SECURITY PF_SMC PF_SNA PF_TIPC PF_UNIX \
    PF_UNSPEC PF_VSOCK PF_WANPIPE PF_X25 PF_XDP PIPE_BUF PMAPPORT PMAPPROC_CALLIT PMAPPROC_DUMP \
    PMAPPROC_GETPORT PMAPPROC_NULL PMAPPROC_SET PMAPPROC_UNSET PMAPPROG PMAPVERS PMAPVERS_ORIG \
    PMAPVERS_PROTO POLL_ERR POLL_HUP POLL_IN POLL_MSG POLL_OUT POLL_PRI \
    PTHREAD_DESTRUCTOR_ITERATIONS PTHREAD_KEYS_MAX PTHREAD_STACK_MIN P_tmpdir RAND_MAX RE_DUP_MAX \
    RPCBPROC_BCAST RPCBPROC_CALLIT RPCBPROC_DUMP RPCBPROC_GETADDR RPCBPROC_GETADDRLIST \
    RPCBPROC_GETSTAT RPCBPROC_GETTIME RPCBPROC_GETVERSADDR RPCBPROC_INDIRECT RPCBPROC_SET \
    RPCBPROC_TADDR2UADDR RPCBPROC_UADDR2TADDR RPCBPROC_UNSET RPCBPROG RPCBSTAT_HIGHPROC RPCBVERS \
    RPCBVERS4 RPCBVERS_2_STAT RPCBVERS_3 RPCBVERS_3_STAT RPCBVERS_4 RPCBVERS_4_STAT RPCBVERS_STAT \
    RPCB_MULTICAST_ADDR RPCSEC_GSS RPCSMALLMSGSIZE RPCTEST_NULL_BATCH_PROC RPCTEST_NULL_PROC \
    RPCTEST_PROGRAM RPCTEST_VERSION RPC_ANYFD RPC_ANYSOCK RPC_MSG_VERSION RPC_PMAPFAILURE \
    RPC_SERVICE_PORT RPC_SVC_CONNMAXREC_GET RPC_SVC_CONNMAXREC_SET RTSIG_MAX SA_INTERRUPT \
    SA_NOCLDSTOP SA_NOCLDWAIT SA_NODEFER SA_NOMASK SA_ONESHOT SA_ONSTACK SA_RESETHAND SA_RESTART \
    SA_SIGINFO SA_STACK SCHAR_MAX SCHAR_MIN SCM_RIGHTS SCM_SRCRT SCM_TIMESTAMP SCM_TIMESTAMPING \
    SCM_TIMESTAMPING_OPT_STATS SCM_TIMESTAMPING_PKTINFO SCM_TIMESTAMPNS SCM_TXTIME SCM_WIFI_STATUS \
    SEEK_CUR SEEK_END SEEK_SET SEGV_ACCADI SEGV_ACCERR SEGV_ADIDERR SEGV_ADIPERR SEGV_BNDERR \
    SEGV_MAPERR SEGV_MTEAERR SEGV_MTESERR SEGV_PKUERR SEM_VALUE_MAX SHRT_MAX SHRT_MIN SHUT_RD \
    SHUT_RDWR SHUT_WR SIGABRT SIGALRM SIGBUS SIGCHLD SIGCLD SIGCONT SIGEV_NONE SIGEV_SIGNAL \
    SIGEV_THREAD SIGEV_THREAD_ID SIGFPE SIGHUP SIGILL SIGINT SIGIO SIGIOT SIGKILL SIGPIPE SIGPOLL \
    SIGPROF SIGPWR SIGQUIT SIGRTMAX SIGRTMIN SIGSEGV SIGSTKFLT SIGSTKSZ SIGSTOP SIGSYS SIGTERM \
    SIGTRAP SIGTSTP SIGTTIN SIGTTOU SIGURG SIGUSR1 SIGUSR2 SIGVTALRM SIGWINCH SIGXCPU SIGXFSZ \
    SIG_BLOCK SIG_DFL SIG_ERR SIG_IGN SIG_SETMASK SIG_UNBLOCK SIOCATMARK SIOCGPGRP \
    SIOCGSTAMPNS_OLD SIOCGSTAMP_OLD SIOCSPGRP SI_ASYNCIO SI_ASYNCNL SI_DETHREAD SI_KERNEL SI_MESGQ \
    SI_QUEUE SI_SIGIO SI_TIMER SI_TKILL SI_USER SOCK_CLOEXEC SOCK_DCCP SOCK_DGRAM SOCK_NONBLOCK \
    SOCK_PACKET SOCK_RAW SOCK_RDM SOCK_SEQPACKET SOCK_STREAM SOL_AAL SOL_ALG SOL_ATM SOL_BLUETOOTH \
    SOL_CAIF SOL_DCCP SOL_DECNET SOL_ICMPV6 SOL_IP SOL_IPV6 SOL_IRDA SOL_IUCV SOL_KCM SOL_LLC \
    SOL_MCTP SOL_MPTCP SOL_NETBEUI SOL_NETLINK SOL_NFC SOL_PACKET SOL_PNPIPE SOL_PPPOL2TP SOL_RAW \
    SOL_RDS SOL_RXRPC SOL_SMC SOL_SOCKET SOL_TIPC SOL_TLS SOL_X25 SOL_XDP SOMAXCONN SO_ACCEPTCONN \
    SO_ATTACH_BPF SO_ATTACH_FILTER SO_ATTACH_REUSEPORT_CBPF SO_ATTACH_REUSEPORT_EBPF \
    SO_BINDTODEVICE SO_BINDTOIFINDEX SO_BPF_EXTENSIONS SO_BROADCAST SO_BSDCOMPAT SO_BUF_LOCK \
    SO_BUSY_POLL SO_BUSY_POLL_BUDGET SO_CNX_ADVICE SO_COOKIE SO_DEBUG SO_DETACH_BPF \
    SO_DETACH_FILTER SO_DETACH_REUSEPORT_BPF SO_DOMAIN SO_DONTROUTE SO_ERROR SO_GET_FILTER \
    SO_INCOMING_CPU SO_INCOMING_NAPI_ID SO_KEEPALIVE SO_LINGER SO_LOCK_FILTER SO_MARK \
    SO_MAX_PACING_RATE SO_MEMINFO SO_NETNS_COOKIE SO_NOFCS SO_NO_CHECK SO_OOBINLINE SO_PASSCRED \
    SO_PASSSEC SO_PEEK_OFF SO_PEERCRED SO_PEERGROUPS SO_PEERNAME SO_PEERSEC SO_PREFER_BUSY_POLL \
    SO_PRIORITY SO_PROTOCOL SO_RCVBUF SO_RCVBUFFORCE SO_RCVLOWAT SO_RCVMARK SO_RCVTIMEO \
    SO_RCVTIMEO_NEW SO_RCVTIMEO_OLD SO_RESERVE_MEM SO_REUSEADDR SO_REUSEPORT SO_RXQ_OVFL \
    SO_SECURITY_AUTHENTICATION SO_SECURITY_ENCRYPTION_NETWORK SO_SECURITY_ENCRYPTION_TRANSPORT \
    SO_SELECT_ERR_QUEUE SO_SNDBUF SO_SNDBUFFORCE SO_SNDLOWAT SO_SNDTIMEO SO_SNDTIMEO_NEW \
    SO_SNDTIMEO_OLD SO_TIMESTAMP SO_TIMESTAMPING SO_TIMESTAMPING_NEW SO_TIMESTAMPING_OLD \
    SO_TIMESTAMPNS SO_TIMESTAMPNS_NEW SO_TIMESTAMPNS_OLD SO_TIMESTAMP_NEW SO_TIMESTAMP_OLD \
    SO_TXREHASH SO_TXTIME SO_TYPE SO_WIFI_STATUS SO_ZEROCOPY SSIZE_MAX SS_DISABLE SS_ONSTACK \
    SVCGET_CONNMAXREC SVCGET_VERSQUIET SVCSET_CONNMAXREC SVCSET_VERSQUIET SVC_VERSQUIET TMP_MAX \
    TRUE TTY_NAME_MAX UCHAR_MAX UDPMSGSIZE UINT_MAX ULLONG_MAX ULONG_MAX USHRT_MAX V2FIRST \
    WCONTINUED WEXITED WNOHANG WNOWAIT WSTOPPED WUNTRACED XATTR_LIST_MAX XATTR_NAME_MAX \
    XATTR_SIZE_MAX acpted_rply adv_nickname adv_timestamp adv_timeverf adv_winverf adv_xtimestamp \
    adv_xtimeverf ar_results ar_vers authsys_parms linux re_errno re_lb re_vers re_why rj_vers \
    rj_why rjcted_rply rm_call rm_reply rp_acpt rp_rjct rpc_createerr rpcb_highproc_2 \
    rpcb_highproc_3 rpcb_highproc_4 s6_addr s6_addr16 s6_addr32 sa_handler sa_sigaction si_addr \
    si_addr_lsb si_arch si_band si_call_addr si_fd si_int si_lower si_overrun si_pid si_pkey \
    si_ptr si_status si_stime si_syscall si_timerid si_uid si_upper si_utime si_value \
    sigev_notify_attributes sigev_notify_function stderr stdin stdout svc_fds unix xp_sock";

/// Those of them that stand for one number, as a `.x` text may spell it, each with that.
pub(crate) const NUMBERS: &str = "\
    AIO_PRIO_DELTA_MAX=20 AUTH_DH=3 AUTH_F_RPCTIMESYNC=0x001 AUTH_F_TRYNONE=0x002 AUTH_KERB=4 \
    AUTH_NONE=0 AUTH_NULL=0 AUTH_SHORT=2 AUTH_SYS=1 BUFSIZ=8192 CHARCLASS_NAME_MAX=2048 \
    CLCR_GET_LOWVERS=4 CLCR_SET_LOWVERS=3 CLGET_FD=6 CLGET_PROG=14 CLGET_RETRY_TIMEOUT=5 \
    CLGET_SERVER_ADDR=3 CLGET_SVC_ADDR=7 CLGET_TIMEOUT=2 CLGET_VERS=12 CLGET_XID=10 CLSET_ASYNC=19 \
    CLSET_CONNECT=20 CLSET_FD_CLOSE=8 CLSET_FD_NCLOSE=9 CLSET_POP_TIMOD=18 CLSET_PROG=15 \
    CLSET_PUSH_TIMOD=17 CLSET_RETRY_TIMEOUT=4 CLSET_SVC_ADDR=16 CLSET_TIMEOUT=1 CLSET_VERS=13 \
    CLSET_XID=11 COLL_WEIGHTS_MAX=255 DELAYTIMER_MAX=2147483647 DEV_BSIZE=512 EXEC_PAGESIZE=4096 \
    EXIT_FAILURE=1 EXIT_SUCCESS=0 FEEDBACK_OK=2 FEEDBACK_REXMIT1=1 FILENAME_MAX=4096 \
    FIOGETOWN=0x8903 FIOSETOWN=0x8901 FOPEN_MAX=16 HOST_NAME_MAX=64 HZ=100 INET6_ADDRSTRLEN=46 \
    INET_ADDRSTRLEN=16 IN_CLASSA_MAX=128 IN_CLASSA_NET=0xff000000 IN_CLASSA_NSHIFT=24 \
    IN_CLASSB_MAX=65536 IN_CLASSB_NET=0xffff0000 IN_CLASSB_NSHIFT=16 IN_CLASSC_NET=0xffffff00 \
    IN_CLASSC_NSHIFT=8 IN_LOOPBACKNET=127 IPV6_2292DSTOPTS=4 IPV6_2292HOPLIMIT=8 \
    IPV6_2292HOPOPTS=3 IPV6_2292PKTINFO=2 IPV6_2292PKTOPTIONS=6 IPV6_2292RTHDR=5 IPV6_ADDRFORM=1 \
    IPV6_ADDR_PREFERENCES=72 IPV6_AUTHHDR=10 IPV6_AUTOFLOWLABEL=70 IPV6_CHECKSUM=7 \
    IPV6_DONTFRAG=62 IPV6_DSTOPTS=59 IPV6_FREEBIND=78 IPV6_HDRINCL=36 IPV6_HOPLIMIT=52 \
    IPV6_HOPOPTS=54 IPV6_IPSEC_POLICY=34 IPV6_JOIN_ANYCAST=27 IPV6_JOIN_GROUP=20 \
    IPV6_LEAVE_ANYCAST=28 IPV6_LEAVE_GROUP=21 IPV6_MINHOPCOUNT=73 IPV6_MTU=24 IPV6_MTU_DISCOVER=23 \
    IPV6_MULTICAST_ALL=29 IPV6_MULTICAST_HOPS=18 IPV6_MULTICAST_IF=17 IPV6_MULTICAST_LOOP=19 \
    IPV6_NEXTHOP=9 IPV6_ORIGDSTADDR=74 IPV6_PATHMTU=61 IPV6_PKTINFO=50 IPV6_PMTUDISC_DO=2 \
    IPV6_PMTUDISC_DONT=0 IPV6_PMTUDISC_INTERFACE=4 IPV6_PMTUDISC_OMIT=5 IPV6_PMTUDISC_PROBE=3 \
    IPV6_PMTUDISC_WANT=1 IPV6_RECVDSTOPTS=58 IPV6_RECVERR=25 IPV6_RECVERR_RFC4884=31 \
    IPV6_RECVFRAGSIZE=77 IPV6_RECVHOPLIMIT=51 IPV6_RECVHOPOPTS=53 IPV6_RECVPATHMTU=60 \
    IPV6_RECVPKTINFO=49 IPV6_RECVRTHDR=56 IPV6_RECVTCLASS=66 IPV6_ROUTER_ALERT=22 \
    IPV6_ROUTER_ALERT_ISOLATE=30 IPV6_RTHDR=57 IPV6_RTHDRDSTOPTS=55 IPV6_RTHDR_LOOSE=0 \
    IPV6_RTHDR_STRICT=1 IPV6_RTHDR_TYPE_0=0 IPV6_TCLASS=67 IPV6_TRANSPARENT=75 \
    IPV6_UNICAST_HOPS=16 IPV6_UNICAST_IF=76 IPV6_V6ONLY=26 IPV6_XFRM_POLICY=35 \
    IP_ADD_MEMBERSHIP=35 IP_ADD_SOURCE_MEMBERSHIP=39 IP_BIND_ADDRESS_NO_PORT=24 IP_BLOCK_SOURCE=38 \
    IP_CHECKSUM=23 IP_DEFAULT_MULTICAST_LOOP=1 IP_DEFAULT_MULTICAST_TTL=1 IP_DROP_MEMBERSHIP=36 \
    IP_DROP_SOURCE_MEMBERSHIP=40 IP_FREEBIND=15 IP_HDRINCL=3 IP_IPSEC_POLICY=16 \
    IP_MAX_MEMBERSHIPS=20 IP_MINTTL=21 IP_MSFILTER=41 IP_MTU=14 IP_MTU_DISCOVER=10 \
    IP_MULTICAST_ALL=49 IP_MULTICAST_IF=32 IP_MULTICAST_LOOP=34 IP_MULTICAST_TTL=33 IP_NODEFRAG=22 \
    IP_OPTIONS=4 IP_ORIGDSTADDR=20 IP_PASSSEC=18 IP_PKTINFO=8 IP_PKTOPTIONS=9 IP_PMTUDISC=10 \
    IP_PMTUDISC_DO=2 IP_PMTUDISC_DONT=0 IP_PMTUDISC_INTERFACE=4 IP_PMTUDISC_OMIT=5 \
    IP_PMTUDISC_PROBE=3 IP_PMTUDISC_WANT=1 IP_RECVERR=11 IP_RECVERR_RFC4884=26 IP_RECVFRAGSIZE=25 \
    IP_RECVOPTS=6 IP_RECVTOS=13 IP_RECVTTL=12 IP_RETOPTS=7 IP_ROUTER_ALERT=5 IP_TOS=1 \
    IP_TRANSPARENT=19 IP_TTL=2 IP_UNBLOCK_SOURCE=37 IP_UNICAST_IF=50 IP_XFRM_POLICY=17 \
    LOGIN_NAME_MAX=256 L_ctermid=9 L_tmpnam=20 MAXHOSTNAMELEN=64 MAXNETNAMELEN=255 MAXSYMLINKS=20 \
    MAX_AUTH_BYTES=400 MAX_CANON=255 MAX_INPUT=255 MAX_MACHINE_NAME=255 MAX_NETOBJ_SZ=1024 \
    MB_LEN_MAX=16 MCAST_BLOCK_SOURCE=43 MCAST_EXCLUDE=0 MCAST_INCLUDE=1 MCAST_JOIN_GROUP=42 \
    MCAST_JOIN_SOURCE_GROUP=46 MCAST_LEAVE_GROUP=45 MCAST_LEAVE_SOURCE_GROUP=47 MCAST_MSFILTER=48 \
    MCAST_UNBLOCK_SOURCE=44 MINSIGSTKSZ=2048 MQ_PRIO_MAX=32768 NAME_MAX=255 NCARGS=131072 \
    NC_BROADCAST=0x02 NC_NOFLAG=0x00 NC_TPI_CLTS=1 NC_TPI_COTS=2 NC_TPI_COTS_ORD=3 NC_TPI_RAW=4 \
    NC_VISIBLE=0x01 NGROUPS_MAX=65536 NGRPS=16 NOFILE=256 PATH_MAX=4096 PF_ALG=38 PF_APPLETALK=5 \
    PF_ASH=18 PF_ATMPVC=8 PF_ATMSVC=20 PF_AX25=3 PF_BLUETOOTH=31 PF_BRIDGE=7 PF_CAIF=37 PF_CAN=29 \
    PF_DECnet=12 PF_ECONET=19 PF_IB=27 PF_IEEE802154=36 PF_INET6=10 PF_INET=2 PF_IPX=4 PF_IRDA=23 \
    PF_ISDN=34 PF_IUCV=32 PF_KCM=41 PF_KEY=15 PF_LLC=26 PF_LOCAL=1 PF_MAX=46 PF_MCTP=45 PF_MPLS=28 \
    PF_NETBEUI=13 PF_NETLINK=16 PF_NETROM=6 PF_NFC=39 PF_PACKET=17 PF_PHONET=35 PF_PPPOX=24 \
    PF_QIPCRTR=42 PF_RDS=21 PF_ROSE=11 PF_RXRPC=33 PF_SECURITY=14 PF_SMC=43 PF_SNA=22 PF_TIPC=30 \
    PF_UNSPEC=0 PF_VSOCK=40 PF_WANPIPE=25 PF_X25=9 PF_XDP=44 PIPE_BUF=4096 PTHREAD_KEYS_MAX=1024 \
    PTHREAD_STACK_MIN=16384 RAND_MAX=2147483647 RPCBSTAT_HIGHPROC=13 RPCBVERS_2_STAT=0 \
    RPCBVERS_3_STAT=1 RPCBVERS_4_STAT=2 RPCBVERS_STAT=3 RPCSEC_GSS=6 RPCSMALLMSGSIZE=400 \
    RPC_ANYSOCK=-1 RPC_SVC_CONNMAXREC_GET=1 RPC_SVC_CONNMAXREC_SET=0 RTSIG_MAX=32 \
    SA_INTERRUPT=0x20000000 SA_NOCLDSTOP=1 SA_NOCLDWAIT=2 SA_NODEFER=0x40000000 \
    SA_ONSTACK=0x08000000 SA_RESETHAND=0x80000000 SA_RESTART=0x10000000 SA_SIGINFO=4 \
    SCM_TIMESTAMPING_OPT_STATS=54 SCM_TIMESTAMPING_PKTINFO=58 SEEK_CUR=1 SEEK_END=2 SEEK_SET=0 \
    SIGABRT=6 SIGALRM=14 SIGBUS=7 SIGCHLD=17 SIGCONT=18 SIGFPE=8 SIGHUP=1 SIGILL=4 SIGINT=2 \
    SIGKILL=9 SIGPIPE=13 SIGPOLL=29 SIGPROF=27 SIGPWR=30 SIGQUIT=3 SIGSEGV=11 SIGSTKFLT=16 \
    SIGSTKSZ=8192 SIGSTOP=19 SIGSYS=31 SIGTERM=15 SIGTRAP=5 SIGTSTP=20 SIGTTIN=21 SIGTTOU=22 \
    SIGURG=23 SIGUSR1=10 SIGUSR2=12 SIGVTALRM=26 SIGWINCH=28 SIGXCPU=24 SIGXFSZ=25 SIG_BLOCK=0 \
    SIG_SETMASK=2 SIG_UNBLOCK=1 SIOCATMARK=0x8905 SIOCGPGRP=0x8904 SIOCGSTAMPNS_OLD=0x8907 \
    SIOCGSTAMP_OLD=0x8906 SIOCSPGRP=0x8902 SOL_AAL=265 SOL_ALG=279 SOL_ATM=264 SOL_BLUETOOTH=274 \
    SOL_CAIF=278 SOL_DCCP=269 SOL_DECNET=261 SOL_ICMPV6=58 SOL_IP=0 SOL_IPV6=41 SOL_IRDA=266 \
    SOL_IUCV=277 SOL_KCM=281 SOL_LLC=268 SOL_MCTP=285 SOL_MPTCP=284 SOL_NETBEUI=267 \
    SOL_NETLINK=270 SOL_NFC=280 SOL_PACKET=263 SOL_PNPIPE=275 SOL_PPPOL2TP=273 SOL_RAW=255 \
    SOL_RDS=276 SOL_RXRPC=272 SOL_SMC=286 SOL_SOCKET=1 SOL_TIPC=271 SOL_TLS=282 SOL_X25=262 \
    SOL_XDP=283 SOMAXCONN=4096 SO_ACCEPTCONN=30 SO_ATTACH_BPF=50 SO_ATTACH_FILTER=26 \
    SO_ATTACH_REUSEPORT_CBPF=51 SO_ATTACH_REUSEPORT_EBPF=52 SO_BINDTODEVICE=25 SO_BINDTOIFINDEX=62 \
    SO_BPF_EXTENSIONS=48 SO_BROADCAST=6 SO_BSDCOMPAT=14 SO_BUF_LOCK=72 SO_BUSY_POLL=46 \
    SO_BUSY_POLL_BUDGET=70 SO_CNX_ADVICE=53 SO_COOKIE=57 SO_DEBUG=1 SO_DETACH_FILTER=27 \
    SO_DETACH_REUSEPORT_BPF=68 SO_DOMAIN=39 SO_DONTROUTE=5 SO_ERROR=4 SO_INCOMING_CPU=49 \
    SO_INCOMING_NAPI_ID=56 SO_KEEPALIVE=9 SO_LINGER=13 SO_LOCK_FILTER=44 SO_MARK=36 \
    SO_MAX_PACING_RATE=47 SO_MEMINFO=55 SO_NETNS_COOKIE=71 SO_NOFCS=43 SO_NO_CHECK=11 \
    SO_OOBINLINE=10 SO_PASSCRED=16 SO_PASSSEC=34 SO_PEEK_OFF=42 SO_PEERCRED=17 SO_PEERGROUPS=59 \
    SO_PEERNAME=28 SO_PEERSEC=31 SO_PREFER_BUSY_POLL=69 SO_PRIORITY=12 SO_PROTOCOL=38 SO_RCVBUF=8 \
    SO_RCVBUFFORCE=33 SO_RCVLOWAT=18 SO_RCVMARK=75 SO_RCVTIMEO_NEW=66 SO_RCVTIMEO_OLD=20 \
    SO_RESERVE_MEM=73 SO_REUSEADDR=2 SO_REUSEPORT=15 SO_RXQ_OVFL=40 SO_SECURITY_AUTHENTICATION=22 \
    SO_SECURITY_ENCRYPTION_NETWORK=24 SO_SECURITY_ENCRYPTION_TRANSPORT=23 SO_SELECT_ERR_QUEUE=45 \
    SO_SNDBUF=7 SO_SNDBUFFORCE=32 SO_SNDLOWAT=19 SO_SNDTIMEO_NEW=67 SO_SNDTIMEO_OLD=21 \
    SO_TIMESTAMPING_NEW=65 SO_TIMESTAMPING_OLD=37 SO_TIMESTAMPNS_NEW=64 SO_TIMESTAMPNS_OLD=35 \
    SO_TIMESTAMP_NEW=63 SO_TIMESTAMP_OLD=29 SO_TXREHASH=74 SO_TXTIME=61 SO_TYPE=3 \
    SO_WIFI_STATUS=41 SO_ZEROCOPY=60 SVCGET_CONNMAXREC=3 SVCGET_VERSQUIET=1 SVCSET_CONNMAXREC=4 \
    SVCSET_VERSQUIET=2 SVC_VERSQUIET=0x0001 TMP_MAX=238328 TTY_NAME_MAX=32 UDPMSGSIZE=8800 \
    WCONTINUED=8 WEXITED=4 WNOHANG=1 WNOWAIT=0x01000000 WSTOPPED=2 WUNTRACED=2 \
    XATTR_LIST_MAX=65536 XATTR_NAME_MAX=255 XATTR_SIZE_MAX=65536 linux=1 unix=1";

/// Macros with parameters, of the headers, which are no functions besides.
pub(crate) const CALL_MACROS: &str = "\
    AUTH_DESTROY AUTH_MARSHALL AUTH_NEXTVERF AUTH_REFRESH AUTH_UNWRAP AUTH_VALIDATE AUTH_WRAP \
    CLNT_ABORT CLNT_CALL CLNT_CONTROL CLNT_DESTROY CLNT_FREERES CLNT_GETERR CMSG_ALIGN CMSG_DATA \
    CMSG_FIRSTHDR CMSG_LEN CMSG_NXTHDR CMSG_SPACE FD_CLR FD_ISSET FD_SET FD_ZERO GROUP_FILTER_SIZE \
    IN6_ARE_ADDR_EQUAL IN6_IS_ADDR_LINKLOCAL IN6_IS_ADDR_LOOPBACK IN6_IS_ADDR_MC_GLOBAL \
    IN6_IS_ADDR_MC_LINKLOCAL IN6_IS_ADDR_MC_NODELOCAL IN6_IS_ADDR_MC_ORGLOCAL \
    IN6_IS_ADDR_MC_SITELOCAL IN6_IS_ADDR_MULTICAST IN6_IS_ADDR_SITELOCAL IN6_IS_ADDR_UNSPECIFIED \
    IN6_IS_ADDR_V4COMPAT IN6_IS_ADDR_V4MAPPED IN_BADCLASS IN_CLASSA IN_CLASSB IN_CLASSC IN_CLASSD \
    IN_EXPERIMENTAL IN_MULTICAST IP_MSFILTER_SIZE IS_UNRECOVERABLE_RPC IXDR_GET_BOOL IXDR_GET_ENUM \
    IXDR_GET_INT32 IXDR_GET_LONG IXDR_GET_SHORT IXDR_GET_U_INT32 IXDR_GET_U_LONG IXDR_GET_U_SHORT \
    IXDR_PUT_BOOL IXDR_PUT_ENUM IXDR_PUT_INT32 IXDR_PUT_LONG IXDR_PUT_SHORT IXDR_PUT_U_INT32 \
    IXDR_PUT_U_LONG IXDR_PUT_U_SHORT MAX MIN RNDUP SUN_LEN SVCAUTH_DESTROY SVCAUTH_UNWRAP \
    SVCAUTH_WRAP SVCEXT SVC_CONTROL SVC_DESTROY SVC_FREEARGS SVC_GETARGS SVC_RECV SVC_REPLY \
    SVC_STAT SVC_XP_AUTH WEXITSTATUS WIFCONTINUED WIFEXITED WIFSIGNALED WIFSTOPPED WSTOPSIG \
    WTERMSIG XDR_CONTROL XDR_DESTROY XDR_GETBYTES XDR_GETINT32 XDR_GETLONG XDR_GETPOS XDR_INLINE \
    XDR_PUTBYTES XDR_PUTINT32 XDR_PUTLONG XDR_SETPOS auth_destroy auth_marshall auth_nextverf \
    auth_refresh auth_unwrap auth_validate auth_wrap authsys_create authsys_create_default be16toh \
    be32toh be64toh clnt_abort clnt_call clnt_control clnt_destroy clnt_freeres clnt_geterr clrbit \
    get_rpc_createerr howmany htobe16 htobe32 htobe64 htole16 htole32 htole64 isclr isset le16toh \
    le32toh le64toh mem_alloc mem_free powerof2 roundup setbit sigmask svc_destroy svc_flags \
    svc_freeargs svc_getargs svc_getcaller svc_getcaller_netbuf svc_getrpccaller svc_recv \
    svc_reply svc_stat timeradd timerclear timercmp timerisset timersub version_keepquiet \
    xdr_control xdr_destroy xdr_getbytes xdr_getlong xdr_getpos xdr_inline xdr_putbytes \
    xdr_putlong xdr_rpcport xdr_rpcproc xdr_rpcprog xdr_rpcprot xdr_rpcvers xdr_setpos";

/// Types, functions, variables and enumerators of the headers.
pub(crate) const NAMES: &str = "\
    ADN_FULLNAME ADN_NICKNAME AUTH AUTH_BADCRED AUTH_BADVERF AUTH_DECODE AUTH_ERROR AUTH_FAILED \
    AUTH_INVALIDRESP AUTH_KERB_GENERIC AUTH_NET_ADDR AUTH_OK AUTH_REJECTEDCRED AUTH_REJECTEDVERF \
    AUTH_TIMEEXPIRE AUTH_TKT_FILE AUTH_TOOWEAK CALL CLIENT FILE GARBAGE_ARGS IPPORT_BIFFUDP \
    IPPORT_CMDSERVER IPPORT_DAYTIME IPPORT_DISCARD IPPORT_ECHO IPPORT_EFSSERVER IPPORT_EXECSERVER \
    IPPORT_FINGER IPPORT_FTP IPPORT_LOGINSERVER IPPORT_MTP IPPORT_NAMESERVER IPPORT_NETSTAT \
    IPPORT_RESERVED IPPORT_RJE IPPORT_ROUTESERVER IPPORT_SMTP IPPORT_SUPDUP IPPORT_SYSTAT \
    IPPORT_TELNET IPPORT_TFTP IPPORT_TIMESERVER IPPORT_TTYLINK IPPORT_USERRESERVED IPPORT_WHOIS \
    IPPORT_WHOSERVER IPPROTO_MAX MSG_ACCEPTED MSG_DENIED NCONF_HANDLE PROC_UNAVAIL PROG_MISMATCH \
    PROG_UNAVAIL REPLY RPCB RPCBLIST RPCSEC_GSS_CREDPROBLEM RPCSEC_GSS_CTXPROBLEM RPC_AUTHERROR \
    RPC_CANTCONNECT RPC_CANTCREATESTREAM RPC_CANTDECODEARGS RPC_CANTDECODERES RPC_CANTENCODEARGS \
    RPC_CANTRECV RPC_CANTSEND RPC_FAILED RPC_INPROGRESS RPC_INTR RPC_MISMATCH RPC_N2AXLATEFAILURE \
    RPC_NOBROADCAST RPC_PROCUNAVAIL RPC_PROGNOTREGISTERED RPC_PROGUNAVAIL RPC_PROGVERSMISMATCH \
    RPC_RPCBFAILURE RPC_STALERACHANDLE RPC_SUCCESS RPC_SYSTEMERROR RPC_TIMEDOUT RPC_TLIERROR \
    RPC_UDERROR RPC_UNKNOWNADDR RPC_UNKNOWNHOST RPC_UNKNOWNPROTO RPC_VERSMISMATCH RPC_XPRTFAILED \
    SUCCESS SVCXPRT SVCXPRT_EXT SYSTEM_ERR XDR XDR_DECODE XDR_ENCODE XDR_FREE XPRT_DIED XPRT_IDLE \
    XPRT_MOREREQS _authenticate _gss_authenticate _null_auth _seterr_reply _svcauth_gss \
    _svcauth_none _svcauth_short _svcauth_unix a64l abort abs accept adjtime aligned_alloc alloca \
    arc4random arc4random_buf arc4random_uniform at_quick_exit atexit atof atoi atol atoll \
    authany_unwrap authany_wrap authdes_create authdes_pk_create authdes_seccreate authnone_create \
    authunix_create authunix_create_default bcmp bcopy bind bindresvport bindresvport6 \
    bindresvport_sa blkcnt_t blksize_t bool_t bsearch bzero caddr_t calloc callrpc clearenv \
    clearerr clearerr_unlocked clnt_broadcast clnt_create clnt_create_timed clnt_create_vers \
    clnt_create_vers_timed clnt_dg_create clnt_pcreateerror clnt_perrno clnt_perror \
    clnt_raw_create clnt_spcreateerror clnt_sperrno clnt_sperror clnt_tli_create clnt_tp_create \
    clnt_tp_create_timed clnt_vc_create clntraw_create clnttcp_create clntudp_bufcreate \
    clntudp_create clntunix_create clock_t clockid_t connect ctermid daddr_t dev_t \
    dh_k4_clntdata_t div div_t dprintf drand48 drand48_r ecvt ecvt_r endnetconfig endnetpath \
    enum_t erand48 erand48_r exit explicit_bzero fclose fcvt fcvt_r fd_mask fd_set fdopen feof \
    feof_unlocked ferror ferror_unlocked fflush fflush_unlocked ffs ffsl ffsll fgetc \
    fgetc_unlocked fgetpos fgets fileno fileno_unlocked flockfile fmemopen fopen fpos_t fpregset_t \
    fprintf fputc fputc_unlocked fputs fread fread_unlocked free freenetconfigent freopen \
    fsblkcnt_t fscanf fseek fseeko fsetpos fsfilcnt_t fsid_t ftell ftello ftrylockfile funlockfile \
    futimes fwrite fwrite_unlocked gcvt get_myaddress getc getc_unlocked getchar getchar_unlocked \
    getdelim getenv getitimer getline getloadavg getnetconfig getnetconfigent getnetname \
    getnetpath getpeername getpublicandprivatekey getpublickey getrpcport getsecretkey getsockname \
    getsockopt getsubopt gettimeofday getw gid_t greg_t gregset_t gsignal host2netname htonl htons \
    id_t in6addr_any in6addr_loopback in_addr_t in_port_t index initstate initstate_r ino_t \
    int16_t int32_t int64_t int8_t isfdtype jrand48 jrand48_r key_decryptsession \
    key_encryptsession key_gendes key_secretkey_is_set key_setsecret key_t kgetnetname kill killpg \
    l64a labs lcong48 lcong48_r ldiv ldiv_t listen llabs lldiv lldiv_t locale_t loff_t lrand48 \
    lrand48_r lutimes malloc mblen mbstowcs mbtowc mcontext_t memccpy memchr memcmp memcpy memmove \
    memset mkdtemp mkstemp mkstemps mktemp mode_t mrand48 mrand48_r nc_perror nc_sperror \
    netname2host netname2user nlink_t nrand48 nrand48_r ntohl ntohs off_t on_exit open_memstream \
    passwd2des pclose perror pid_t pmap_getmaps pmap_getport pmap_rmtcall pmap_set pmap_unset \
    popen posix_memalign printf pselect psiginfo psignal pthread_barrier_t pthread_barrierattr_t \
    pthread_cond_t pthread_condattr_t pthread_key_t pthread_kill pthread_mutex_t \
    pthread_mutexattr_t pthread_once_t pthread_rwlock_t pthread_rwlockattr_t pthread_sigmask \
    pthread_spinlock_t pthread_t putc putc_unlocked putchar putchar_unlocked putenv puts putw \
    qecvt qecvt_r qfcvt qfcvt_r qgcvt qsort quad_t quick_exit raise rand rand_r random random_r \
    realloc reallocarray realpath recv recvfrom recvmsg register_t registerrpc remove rename \
    renameat resultproc_t rewind rindex rpc_broadcast rpc_broadcast_exp rpc_call rpc_inline_t \
    rpc_reg rpcb_entry_list_ptr rpcb_getaddr rpcb_getmaps rpcb_gettime rpcb_rmtcall rpcb_set \
    rpcb_stat_byvers rpcb_taddr2uaddr rpcb_uaddr2taddr rpcb_unset rpcblist_ptr rpcbproc_bcast_4 \
    rpcbproc_bcast_4_svc rpcbproc_callit_3 rpcbproc_callit_3_svc rpcbproc_dump_3 \
    rpcbproc_dump_3_svc rpcbproc_dump_4 rpcbproc_dump_4_svc rpcbproc_getaddr_3 \
    rpcbproc_getaddr_3_svc rpcbproc_getaddr_4 rpcbproc_getaddr_4_svc rpcbproc_getaddrlist_4 \
    rpcbproc_getaddrlist_4_svc rpcbproc_getstat_4 rpcbproc_getstat_4_svc rpcbproc_gettime_3 \
    rpcbproc_gettime_3_svc rpcbproc_gettime_4 rpcbproc_gettime_4_svc rpcbproc_getversaddr_4 \
    rpcbproc_getversaddr_4_svc rpcbproc_indirect_4 rpcbproc_indirect_4_svc rpcbproc_set_3 \
    rpcbproc_set_3_svc rpcbproc_set_4 rpcbproc_set_4_svc rpcbproc_taddr2uaddr_3 \
    rpcbproc_taddr2uaddr_3_svc rpcbproc_taddr2uaddr_4 rpcbproc_taddr2uaddr_4_svc \
    rpcbproc_uaddr2taddr_3 rpcbproc_uaddr2taddr_3_svc rpcbproc_uaddr2taddr_4 \
    rpcbproc_uaddr2taddr_4_svc rpcbproc_unset_3 rpcbproc_unset_3_svc rpcbproc_unset_4 \
    rpcbproc_unset_4_svc rpcbs_addrlist_ptr rpcbs_proc rpcbs_rmtcalllist_ptr rpcport_t rpcproc_t \
    rpcprog_t rpcprot_t rpctest_service rpcvers_t rpmatch rtime sa_family_t scanf sec_data_t \
    seed48 seed48_r select send sendmsg sendto setbuf setbuffer setenv setitimer setlinebuf \
    setnetconfig setnetpath setsockopt setstate setstate_r settimeofday setvbuf shutdown \
    sig_atomic_t sig_t sigaddset sigaltstack sigblock sigdelset sigemptyset sigevent_t sigfillset \
    siggetmask siginfo_t siginterrupt sigismember signal sigpending sigprocmask sigqueue sigreturn \
    sigset_t sigsetmask sigsuspend sigtimedwait sigval_t sigwait sigwaitinfo size_t snprintf \
    sockatmark socket socketpair socklen_t sprintf srand srand48 srand48_r srandom srandom_r \
    sscanf ssignal ssize_t stack_t stpcpy stpncpy strcasecmp strcasecmp_l strcat strchr strcmp \
    strcoll strcoll_l strcpy strcspn strdup strerror strerror_l strerror_r strlen strncasecmp \
    strncasecmp_l strncat strncmp strncpy strndup strnlen strpbrk strrchr strsep strsignal strspn \
    strstr strtod strtof strtok strtok_r strtol strtold strtoll strtoq strtoul strtoull strtouq \
    strxfrm strxfrm_l suseconds_t svc_auth_reg svc_create svc_dg_create svc_dg_enablecache \
    svc_exit svc_fd_create svc_fdset svc_getreq svc_getreq_common svc_getreq_poll svc_getreqset \
    svc_max_pollfd svc_maxfd svc_pollfd svc_raw_create svc_reg svc_register svc_run svc_sendreply \
    svc_tli_create svc_tp_create svc_unreg svc_unregister svc_vc_create svcerr_auth svcerr_decode \
    svcerr_noproc svcerr_noprog svcerr_progvers svcerr_systemerr svcerr_weakauth svcfd_create \
    svcraw_create svctcp6_create svctcp_create svcudp6_bufcreate svcudp6_create svcudp_bufcreate \
    svcudp_create svcudp_enablecache svcunix_create svcunixfd_create system taddr2uaddr tempnam \
    time_t timer_t tmpfile tmpnam tmpnam_r u_char u_int u_int16_t u_int32 u_int32_t u_int64_t \
    u_int8_t u_long u_quad_t u_short uaddr2taddr uid_t uint uint16_t uint32_t uint64_t uint8_t \
    ulong ungetc unsetenv user2netname ushort utimes va_list valloc vdprintf vfprintf vfscanf \
    vprintf vscanf vsnprintf vsprintf vsscanf wcstombs wctomb xdr_accepted_reply xdr_array \
    xdr_authunix_parms xdr_bool xdr_bytes xdr_callhdr xdr_callmsg xdr_char xdr_des_block \
    xdr_double xdr_enum xdr_float xdr_free xdr_getint32 xdr_hyper xdr_int xdr_int16_t xdr_int32_t \
    xdr_int64_t xdr_int8_t xdr_long xdr_longlong_t xdr_netbuf xdr_netobj xdr_opaque \
    xdr_opaque_auth xdr_pmap xdr_pmaplist xdr_pmaplist_ptr xdr_pointer xdr_putint32 xdr_quad_t \
    xdr_quadruple xdr_reference xdr_rejected_reply xdr_replymsg xdr_rp__list xdr_rpcb \
    xdr_rpcb_entry xdr_rpcb_entry_list xdr_rpcb_entry_list_ptr xdr_rpcb_rmtcallargs \
    xdr_rpcb_rmtcallres xdr_rpcb_stat xdr_rpcb_stat_byvers xdr_rpcblist xdr_rpcblist_ptr \
    xdr_rpcbs_addrlist xdr_rpcbs_addrlist_ptr xdr_rpcbs_proc xdr_rpcbs_rmtcalllist \
    xdr_rpcbs_rmtcalllist_ptr xdr_short xdr_sizeof xdr_string xdr_u_char xdr_u_hyper xdr_u_int \
    xdr_u_int16_t xdr_u_int32_t xdr_u_int64_t xdr_u_int8_t xdr_u_long xdr_u_longlong_t \
    xdr_u_quad_t xdr_u_short xdr_uint16_t xdr_uint32_t xdr_uint64_t xdr_uint8_t xdr_union \
    xdr_vector xdr_void xdr_wrapstring xdrmem_create xdrproc_t xdrrec_create xdrrec_endofrecord \
    xdrrec_eof xdrrec_readbytes xdrrec_skiprecord xdrstdio_create xprt_register xprt_unregister";

/// Tags of the headers, and `rpcgen_table`: a generated table is an array of that struct,
/// which its user declares.
pub(crate) const TAGS: &str = "\
    _fpreg _fpstate _fpx_sw_bytes _fpxreg _libc_fpstate _libc_fpxreg _libc_xmmreg _xmmreg \
    _xsave_hdr _xstate _ymmh_state accept_stat accepted_reply auth_ops auth_stat authdes_cred \
    authdes_fullname authdes_namekind authdes_verf authunix_parms call_body clnt_ops clnt_stat \
    cmsghdr des_clnt_data drand48_data group_filter group_req group_source_req in6_addr in_addr \
    in_pktinfo iovec ip_mreq ip_mreq_source ip_mreqn ip_msfilter ip_opts ipv6_mreq itimerval \
    knetconfig linger msg_type msghdr netbuf netconfig opaque_auth osockaddr pmap pmaplist pollfd \
    r_rpcb_rmtcallargs r_rpcb_rmtcallres random_data reject_stat rejected_reply reply_body \
    reply_stat rpc_err rpc_msg rpc_timers rpcgen_table sec_data short_hand_verf sigcontext \
    sigevent sigval sockaddr sockaddr_in sockaddr_in6 sockaddr_storage sockaddr_un svc_auth_ops \
    svc_req t_bind timespec timeval timezone xdr_discrim xdr_op xdr_ops xp_ops xp_ops2 xprt_stat";

/// Names of the headers that are tags besides.
pub(crate) const TAGGED_NAMES: &str = "\
    SVCAUTH des_block netobj pthread_attr_t rp__list rpcb rpcb_entry rpcb_entry_list \
    rpcb_rmtcallargs rpcb_rmtcallres rpcb_stat rpcblist rpcbs_addrlist rpcbs_rmtcalllist sigaction \
    sigstack ucontext_t";

/// Parameters of the generated functions.
pub(crate) const PARAMETERS: &str = "\
    argp clnt objp xdrs";

/// Variables of the generated functions: a result and a time-out; and the members that `clnt_call` names.
pub(crate) const VARIABLES: &str = "\
    cl_call cl_ops clnt_res timeout";
